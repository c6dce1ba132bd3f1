//! Operators on whole numbers.
ghost use Rattle.std.specs.Prelude.{◌≡◌, ℤ, FitsSigned};
ghost use Rattle.std.specs.Int.{w128};
ghost use Rattle.std.specs.Option.{SomeIff};
ghost use Rattle.rl_exception.specs.Answer.{Answers};
ghost use Rattle.rl_operators.specs.Arithmetic.{whole, quotient, remainder};
ghost use Rattle.rl_operators.specs.Operators.{divide_of, remainder_of, negate_of};

use rl_exception::{OpEnd, divided_by_zero, out_of_range, wrong_kind};
use rl_value::{Opened, Value, int};
use std::alloc::Global;

/// The number, unless it was out of range.
pub(crate) fn number(alloc: Global, checked: Option<i128>) -> Result<Value, OpEnd>
    ensures { (n : ℤ) → SomeIff checked (FitsSigned w128 n) n → Answers (whole n) result }
{
    match checked {
        Some(n) => Ok(int(n)),
        None => Err(out_of_range(alloc)),
    }
}

fn quotient(alloc: Global, m: i128, n: i128) -> Result<Value, OpEnd>
    ensures { Answers (quotient m n) result }
{
    if n == 0 {
        Err(divided_by_zero(alloc))
    } else {
        number(alloc, m.checked_div(n))
    }
}

fn remainder(alloc: Global, m: i128, n: i128) -> Result<Value, OpEnd>
    ensures { Answers (remainder m n) result }
{
    if n == 0 {
        Err(divided_by_zero(alloc))
    } else {
        Ok(int(m.wrapping_rem(n)))
    }
}

pub(crate) fn divide(alloc: Global, a: &Value, b: &Value) -> Result<Value, OpEnd>
    ensures { Answers (divide_of a.now b.now) result }
{
    match (a.open(), b.open()) {
        (Opened::Int(m), Opened::Int(n)) => quotient(alloc, m, n),
        _ => Err(wrong_kind(alloc)),
    }
}

pub(crate) fn take_remainder(alloc: Global, a: &Value, b: &Value) -> Result<Value, OpEnd>
    ensures { Answers (remainder_of a.now b.now) result }
{
    match (a.open(), b.open()) {
        (Opened::Int(m), Opened::Int(n)) => remainder(alloc, m, n),
        _ => Err(wrong_kind(alloc)),
    }
}

pub(crate) fn negate(alloc: Global, a: &Value) -> Result<Value, OpEnd>
    ensures { Answers (negate_of a.now) result }
{
    match a.open() {
        Opened::Int(n) => number(alloc, n.checked_neg()),
        _ => Err(wrong_kind(alloc)),
    }
}
