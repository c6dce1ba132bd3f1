//! Comparisons.
ghost use Rattle.std.specs.Prelude.{◌≡◌, not};
ghost use Rattle.rl_value.specs.Plain.{bool};
ghost use Rattle.rl_value.specs.Laws.{plain_eq};
ghost use Rattle.rl_exception.specs.Answer.{Answers};
ghost use Rattle.rl_operators.specs.Comparison.{less_of, less_or_equal_of};

use crate::sets::{is_proper_subset, is_subset};
use rl_exception::{OpEnd, wrong_kind};
use rl_value::{Opened, Value, truth};
use std::alloc::Global;

pub(crate) fn equal(a: &Value, b: &Value) -> Value
    ensures { result ≡ bool (plain_eq a.now b.now) }
{
    truth(a == b)
}

pub(crate) fn not_equal(a: &Value, b: &Value) -> Value
    ensures { result ≡ bool (not (plain_eq a.now b.now)) }
{
    truth(a != b)
}

#[tactic(auto, using(rl_value::specs::Plain::back))]
pub(crate) fn less(alloc: Global, a: &Value, b: &Value) -> Result<Value, OpEnd>
    ensures { Answers (less_of a.now b.now) result }
{
    match (a.open(), b.open()) {
        (Opened::Int(m), Opened::Int(n)) => Ok(truth(m.cmp(&n).is_lt())),
        (Opened::Text(s), Opened::Text(t)) => Ok(truth(s.cmp(t).is_lt())),
        (Opened::Set(s), Opened::Set(t)) => Ok(truth(is_proper_subset(s, t))),
        _ => Err(wrong_kind(alloc)),
    }
}

#[tactic(auto, using(rl_value::specs::Plain::back))]
pub(crate) fn less_or_equal(alloc: Global, a: &Value, b: &Value) -> Result<Value, OpEnd>
    ensures { Answers (less_or_equal_of a.now b.now) result }
{
    match (a.open(), b.open()) {
        (Opened::Int(m), Opened::Int(n)) => Ok(truth(m.cmp(&n).is_le())),
        (Opened::Text(s), Opened::Text(t)) => Ok(truth(s.cmp(t).is_le())),
        (Opened::Set(s), Opened::Set(t)) => Ok(truth(is_subset(s, t))),
        _ => Err(wrong_kind(alloc)),
    }
}
