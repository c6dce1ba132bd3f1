//! dup.

ghost use Rattle.std.specs.Prelude.{◌≡◌, IfOk, OnOk, [], not, ◌||◌};
ghost use Rattle.std.specs.BTreeSet.{contains};
ghost use Rattle.rl_value.specs.Plain.{Plain};
ghost use Rattle.rl_value.specs.Order.{plain_cmp};
ghost use Rattle.rl_value.specs.Laws.{plain_eq};
ghost use Rattle.rl_exception.specs.Answer.{Answers};
ghost use Rattle.rl_collections.specs.Repeats.{firsts, dup_of};

use rl_arguments::list_in;
use rl_exception::{OpEnd, fitted_list, wrong_kind};
use rl_value::Value;
use std::alloc::{AllocError, Global};
use std::collections::BTreeSet;

/// A list without its repeats; each element stays at its first place.
pub fn dup(alloc: Global, v: &Value) -> Result<Value, OpEnd>
    ensures { Answers (dup_of v.now) result }
{
    let Some(items) = list_in(v) else {
        return Err(wrong_kind(alloc));
    };
    fitted_list(alloc, firsts(alloc, items)?)
}

fn firsts(alloc: Global, items: &[Value]) -> Result<Vec<Value>, AllocError>
    ensures { IfOk result (λ v. v.items ≡ firsts [] items.now) }
{
    let mut seen = BTreeSet::new(alloc);
    let mut firsts = Vec::new(alloc);
    for item in items {
        if is_new(&mut seen, item)? {
            firsts.push(item.share()?)?;
        }
    }
    Ok(firsts)
}

// Whether a value was not seen before; from now on it was.
fn is_new(seen: &mut BTreeSet<Value>, item: &Value) -> Result<bool, AllocError>
    ensures new { IfOk result (λ new. new ≡ not (contains plain_cmp seen.old item.now)) }
    ensures seen { OnOk result ((t : Plain) → contains plain_cmp seen.new t ≡ (plain_eq item.now t || contains plain_cmp seen.old t)) }
{
    let new = seen.insert(item.share()?)?;
    Ok(new)
}
