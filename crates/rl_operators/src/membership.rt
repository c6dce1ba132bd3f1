//! Membership, and names of constructors and trees.
ghost use Rattle.std.specs.Prelude.{◌≡◌};
ghost use Rattle.rl_exception.specs.Answer.{Answers};
ghost use Rattle.rl_operators.specs.Membership.{in_of, not_in_of, is_of};

use crate::lists::has_element;
use crate::maps::has_key;
use crate::sets::has;
use rl_exception::{OpEnd, wrong_kind};
use rl_value::{Opened, Value, truth};
use std::alloc::Global;

#[tactic(auto, using(rl_value::specs::Plain::back))]
pub(crate) fn is_in(alloc: Global, x: &Value, collection: &Value) -> Result<Value, OpEnd>
    ensures { Answers (in_of x.now collection.now) result }
{
    match collection.open() {
        Opened::List(items) => Ok(truth(has_element(items, x))),
        Opened::Set(items) => Ok(truth(has(items, x))),
        Opened::Map(entries) => Ok(truth(has_key(entries, x))),
        _ => Err(wrong_kind(alloc)),
    }
}

#[tactic(auto, using(rl_value::specs::Plain::back))]
pub(crate) fn is_not_in(alloc: Global, x: &Value, collection: &Value) -> Result<Value, OpEnd>
    ensures { Answers (not_in_of x.now collection.now) result }
{
    match collection.open() {
        Opened::List(items) => Ok(truth(!has_element(items, x))),
        Opened::Set(items) => Ok(truth(!has(items, x))),
        Opened::Map(entries) => Ok(truth(!has_key(entries, x))),
        _ => Err(wrong_kind(alloc)),
    }
}

pub(crate) fn has_name(alloc: Global, a: &Value, b: &Value) -> Result<Value, OpEnd>
    ensures { Answers (is_of a.now b.now) result }
{
    match (a.open(), b.open()) {
        (Opened::Node(name, _), Opened::Text(word)) => Ok(truth(name == word)),
        (Opened::Tree(shape, _), Opened::Text(word)) => Ok(truth(shape.label.as_str() == word)),
        _ => Err(wrong_kind(alloc)),
    }
}
