//! head, last and tail.

ghost use Rattle.std.specs.Prelude.{◌≡◌};
ghost use Rattle.rl_exception.specs.Answer.{Answers};
ghost use Rattle.rl_collections.specs.Ends.{head_of, last_of, tail_of, behind_first};

use rl_arguments::{list_in, shares};
use rl_exception::{OpEnd, empty_list, fitted_list, wrong_kind};
use rl_value::Value;
use std::alloc::Global;

/// The first element of a list.
pub fn head(alloc: Global, v: &Value) -> Result<Value, OpEnd>
    ensures { Answers (head_of v.now) result }
{
    let Some(items) = list_in(v) else {
        return Err(wrong_kind(alloc));
    };
    match items.first() {
        Some(item) => Ok(item.share()?),
        None => Err(empty_list(alloc)),
    }
}

/// The last element of a list.
pub fn last(alloc: Global, v: &Value) -> Result<Value, OpEnd>
    ensures { Answers (last_of v.now) result }
{
    let Some(items) = list_in(v) else {
        return Err(wrong_kind(alloc));
    };
    match items.last() {
        Some(item) => Ok(item.share()?),
        None => Err(empty_list(alloc)),
    }
}

/// A list without its first element.
pub fn tail(alloc: Global, v: &Value) -> Result<Value, OpEnd>
    ensures { Answers (tail_of v.now) result }
{
    match list_in(v) {
        Some(items) => behind_first(alloc, items),
        None => Err(wrong_kind(alloc)),
    }
}

fn behind_first(alloc: Global, items: &[Value]) -> Result<Value, OpEnd>
    ensures { Answers (behind_first items.now) result }
{
    match items.split_first() {
        Some((_, others)) => fitted_list(alloc, shares(alloc, others)?),
        None => Err(empty_list(alloc)),
    }
}
