//! sum.

ghost use Rattle.std.specs.Prelude.{◌≡◌, IfOk, pos};
ghost use Rattle.std.specs.Option.{option_map};
ghost use Rattle.rl_exception.specs.Answer.{Answers};
ghost use Rattle.rl_arguments.specs.Arguments.{taking};
ghost use Rattle.rl_collections.specs.Sums.{numbers_in, added, sum_of};

use crate::sorting::elements_in;
use rl_exception::{OpEnd, out_of_range, wrong_kind};
use rl_value::{Value, int};
use std::alloc::{AllocError, Global};

/// The sum of the numbers of a list or a set, added from the left.
pub fn sum(alloc: Global, v: &Value) -> Result<Value, OpEnd>
    ensures { Answers (sum_of v.now) result }
{
    match elements_in(v) {
        Some(items) => sum_of_all(alloc, items),
        None => Err(wrong_kind(alloc)),
    }
}

fn sum_of_all(alloc: Global, items: &[Value]) -> Result<Value, OpEnd>
    ensures { Answers (taking (numbers_in items.now) (added (pos 0))) result }
{
    match numbers_in(alloc, items)? {
        Some(numbers) => added(alloc, &numbers),
        None => Err(wrong_kind(alloc)),
    }
}

// The numbers, where each element is one.
fn numbers_in(alloc: Global, items: &[Value]) -> Result<Option<Vec<i128>>, AllocError>
    ensures { IfOk result (λ found. option_map (λ v. v.items) found ≡ numbers_in items.now) }
{
    let mut numbers = Vec::with_capacity(alloc, items.len())?;
    for item in items {
        match item.as_int() {
            Some(number) => numbers.push(number)?,
            None => return Ok(None),
        }
    }
    Ok(Some(numbers))
}

fn added(alloc: Global, numbers: &[i128]) -> Result<Value, OpEnd>
    ensures { Answers (added (pos 0) numbers.now) result }
{
    let mut total = 0i128;
    for number in numbers {
        match total.checked_add(*number) {
            Some(sum) => total = sum,
            None => return Err(out_of_range(alloc)),
        }
    }
    Ok(int(total))
}
