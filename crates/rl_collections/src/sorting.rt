//! sort.

ghost use Rattle.std.specs.Prelude.{◌≡◌, IfOk};
ghost use Rattle.std.specs.Option.{option_copied};
ghost use Rattle.rl_exception.specs.Answer.{Answers};
ghost use Rattle.rl_collections.specs.Sorting.{elements_in, sorted, sort_of};

use rl_arguments::shares;
use rl_exception::{OpEnd, fitted_list, wrong_kind};
use rl_value::{Opened, Value};
use std::alloc::{AllocError, Global};

/// The elements of a list or a set in the order of values.
pub fn sort(alloc: Global, v: &Value) -> Result<Value, OpEnd>
    ensures { Answers (sort_of v.now) result }
{
    let Some(items) = elements_in(v) else {
        return Err(wrong_kind(alloc));
    };
    fitted_list(alloc, sorted(alloc, items)?)
}

/// The elements of a list or a set.
#[tactic(auto, using(rl_value::specs::Plain::back))]
pub(crate) fn elements_in(v: &Value) -> Option<&[Value]>
    ensures { option_copied result ≡ elements_in v.now }
{
    match v.open() {
        Opened::List(items) | Opened::Set(items) => Some(items),
        _ => None,
    }
}

fn sorted(alloc: Global, items: &[Value]) -> Result<Vec<Value>, AllocError>
    ensures { IfOk result (λ v. v.items ≡ sorted items.now) }
{
    let mut sorted = shares(alloc, items)?;
    sorted.sort_unstable();
    Ok(sorted)
}
