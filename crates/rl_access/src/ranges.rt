//! What `[a..b]` and `[a, next..b]` give.

ghost use Rattle.std.specs.Prelude.{◌≡◌, ◌<◌, ◌-ℤ◌, ◌+ℤ◌, unsigned_abs, true, IfOk, map};
ghost use Rattle.std.specs.Int.{div_ceil};
ghost use Rattle.std.specs.List.{list_all};
ghost use Rattle.std.specs.Option.{option_copied};
ghost use Rattle.rl_value.specs.Plain.{int};
ghost use Rattle.rl_value.specs.Readers.{as_int};
ghost use Rattle.rl_exception.specs.Answer.{Answers, fitting};
ghost use Rattle.rl_access.specs.Operands.{of_int};
ghost use Rattle.rl_access.specs.Ranges.{range_of, stepped_to, counted_to, numbers, by_steps, is_in_range};

use rl_exception::{OpEnd, fitted_list, out_of_range, too_large, wrong_kind};
use rl_value::{MAX_SIZE, Value, int};
use std::alloc::{AllocError, Global};

/// The numbers from `a` up to `b`, or down to it, without `b` itself: by 1, or by the step from `a` to
/// `next`.
pub fn range(alloc: Global, a: &Value, next: Option<&Value>, b: &Value) -> Result<Value, OpEnd>
    ensures { Answers (range_of a.now (option_copied next.entry) b.now) result }
{
    match next {
        None => by_one(alloc, a, b),
        Some(next) => by_next(alloc, a, next, b),
    }
}

fn by_one(alloc: Global, a: &Value, b: &Value) -> Result<Value, OpEnd>
    ensures { Answers (range_of a.now None b.now) result }
{
    let (Some(a), Some(b)) = (a.as_int(), b.as_int()) else {
        return Err(wrong_kind(alloc));
    };
    let step = if b < a { -1 } else { 1 };
    counted(alloc, a, step, b)
}

fn by_next(alloc: Global, a: &Value, next: &Value, b: &Value) -> Result<Value, OpEnd>
    ensures { Answers (range_of a.now (Some next.now) b.now) result }
{
    let (Some(a), Some(next), Some(b)) = (a.as_int(), next.as_int(), b.as_int()) else {
        return Err(wrong_kind(alloc));
    };
    match next.checked_sub(a) {
        Some(step) => counted(alloc, a, step, b),
        None => Err(out_of_range(alloc)),
    }
}

// The numbers from `a` on by `step` that stand before `b`.
fn counted(alloc: Global, a: i128, step: i128, b: i128) -> Result<Value, OpEnd>
    ensures { Answers (fitting (numbers (counted_to b a step))) result }
{
    let count = count(a, step, b);
    if count >= MAX_SIZE as u128 {
        return Err(too_large(alloc));
    }
    let found = steps(alloc, a, step, count as usize)?;
    fitted_list(alloc, found)
}

// How many numbers stand before `b` from `a` on by `step`.
fn count(a: i128, step: i128, b: i128) -> u128
    ensures { by_steps result a step ≡ counted_to b a step }
{
    if step > 0 && a < b {
        count_over(a, step, b)
    } else if step < 0 && b < a {
        count_over(a, step, b)
    } else {
        0
    }
}

// How many steps it takes from `a` to `b` or past it.
fn count_over(a: i128, step: i128, b: i128) -> u128
    requires { 0 < unsigned_abs step }
    ensures { result ≡ div_ceil (unsigned_abs (b -ℤ a)) (unsigned_abs step) }
{
    b.abs_diff(a).div_ceil(step.unsigned_abs())
}

// That many numbers from `a` on by `step`.
fn steps(alloc: Global, a: i128, step: i128, count: usize) -> Result<Vec<Value>, AllocError>
    requires { list_all is_in_range (by_steps count a step) ≡ true }
    ensures { IfOk result (λ found. found.items ≡ map int (by_steps count a step)) }
{
    let mut found = Vec::with_capacity(alloc, count)?;
    let mut number = a;
    for i in 0..count {
        found.push(int(number))?;
        number = after(number, step);
    }
    Ok(found)
}

// The number one step further, where it is a number of the language.
fn after(number: i128, step: i128) -> i128
    ensures { is_in_range (number +ℤ step) ≡ true → result ≡ (number +ℤ step) }
{
    match number.checked_add(step) {
        Some(next) => next,
        None => number,
    }
}
