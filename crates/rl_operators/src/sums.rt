//! The operators `+`, `-` and `&`.
ghost use Rattle.std.specs.Prelude.{◌≡◌};
ghost use Rattle.rl_exception.specs.Answer.{Answers};
ghost use Rattle.rl_operators.specs.Operators.{add_of, subtract_of, intersect_of};

use crate::arithmetic::number;
use crate::lists::{append, join_lists, join_tuples, prepend, remove_each, remove_first};
use crate::locations::{add_segment, join_texts};
use crate::maps::unite_maps;
use crate::sets::{intersect_sets, put_in, put_into, subtract_sets, take_from, unite};
use rl_exception::{OpEnd, wrong_kind};
use rl_value::{Opened, Value};
use std::alloc::Global;

#[tactic(auto, using(rl_value::specs::Plain::back))]
pub(crate) fn add(alloc: Global, a: &Value, b: &Value) -> Result<Value, OpEnd>
    ensures { Answers (add_of a.now b.now) result }
{
    match (a.open(), b.open()) {
        (Opened::Int(m), Opened::Int(n)) => number(alloc, m.checked_add(n)),
        (Opened::Text(s), Opened::Text(t)) => join_texts(alloc, s, t),
        (Opened::List(s), Opened::List(t)) => join_lists(alloc, s, t),
        (Opened::Tuple(s), Opened::Tuple(t)) => join_tuples(alloc, s, t),
        (Opened::Set(s), Opened::Set(t)) => unite(alloc, s, t),
        (Opened::Map(s), Opened::Map(t)) => unite_maps(alloc, s, t),
        (Opened::Location(scheme, path, _), Opened::Text(segment)) => {
            add_segment(alloc, scheme, path, segment)
        }
        (Opened::List(items), _) => append(alloc, items, b),
        (Opened::Set(items), _) => put_in(alloc, items, b),
        (_, Opened::List(items)) => prepend(alloc, a, items),
        (_, Opened::Set(items)) => put_into(alloc, a, items),
        _ => Err(wrong_kind(alloc)),
    }
}

#[tactic(auto, using(rl_value::specs::Plain::back))]
pub(crate) fn subtract(alloc: Global, a: &Value, b: &Value) -> Result<Value, OpEnd>
    ensures { Answers (subtract_of a.now b.now) result }
{
    match (a.open(), b.open()) {
        (Opened::Int(m), Opened::Int(n)) => number(alloc, m.checked_sub(n)),
        (Opened::Set(s), Opened::Set(t)) => subtract_sets(alloc, s, t),
        (Opened::Set(s), _) => take_from(alloc, s, b),
        (Opened::List(s), Opened::List(t)) => remove_each(alloc, s, t),
        (Opened::List(s), _) => remove_first(alloc, s, b),
        _ => Err(wrong_kind(alloc)),
    }
}

#[tactic(auto, using(rl_value::specs::Plain::back))]
pub(crate) fn intersect(alloc: Global, a: &Value, b: &Value) -> Result<Value, OpEnd>
    ensures { Answers (intersect_of a.now b.now) result }
{
    match (a.open(), b.open()) {
        (Opened::Set(s), Opened::Set(t)) => intersect_sets(alloc, s, t),
        _ => Err(wrong_kind(alloc)),
    }
}
