//! Truth values.
ghost use Rattle.std.specs.Prelude.{◌≡◌};
ghost use Rattle.rl_exception.specs.Answer.{Answers};
ghost use Rattle.rl_operators.specs.Logic.{or_of, implies_of, equivalent_of, not_of};

use rl_exception::{OpEnd, wrong_kind};
use rl_value::{Opened, Value, truth};
use std::alloc::Global;

pub(crate) fn or(alloc: Global, a: &Value, b: &Value) -> Result<Value, OpEnd>
    ensures { Answers (or_of a.now b.now) result }
{
    match (a.open(), b.open()) {
        (Opened::Bool(true), _) => Ok(truth(true)),
        (Opened::Bool(false), Opened::Bool(q)) => Ok(truth(q)),
        _ => Err(wrong_kind(alloc)),
    }
}

pub(crate) fn implies(alloc: Global, a: &Value, b: &Value) -> Result<Value, OpEnd>
    ensures { Answers (implies_of a.now b.now) result }
{
    match (a.open(), b.open()) {
        (Opened::Bool(false), _) => Ok(truth(true)),
        (Opened::Bool(true), Opened::Bool(q)) => Ok(truth(q)),
        _ => Err(wrong_kind(alloc)),
    }
}

pub(crate) fn equivalent(alloc: Global, a: &Value, b: &Value) -> Result<Value, OpEnd>
    ensures { Answers (equivalent_of a.now b.now) result }
{
    match (a.open(), b.open()) {
        (Opened::Bool(p), Opened::Bool(q)) => Ok(truth(p == q)),
        _ => Err(wrong_kind(alloc)),
    }
}

pub(crate) fn negation(alloc: Global, a: &Value) -> Result<Value, OpEnd>
    ensures { Answers (not_of a.now) result }
{
    match a.open() {
        Opened::Bool(p) => Ok(truth(!p)),
        _ => Err(wrong_kind(alloc)),
    }
}
