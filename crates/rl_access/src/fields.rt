//! What `a.f` gives, where f is the name of the field that stands at a place, if there is one.

ghost use Rattle.std.specs.Prelude.{slice_get};
ghost use Rattle.std.specs.Option.{option_and_then};
ghost use Rattle.rl_exception.specs.Answer.{Answers, throwing};
ghost use Rattle.rl_exception.specs.Exceptions.{no_such_field};
ghost use Rattle.rl_access.specs.Operands.{found_or};
ghost use Rattle.rl_access.specs.Fields.{field_of};

use rl_exception::{OpEnd, no_such_field, wrong_kind};
use rl_value::{Opened, Value};
use std::alloc::Global;

/// The value of a constructor's field. Its declaration says at which place the field of this name
/// stands, counted from 0, if it has one.
#[tactic(auto, using(rl_value::specs::Plain::back))]
pub fn field(alloc: Global, a: &Value, name: &str, place: Option<usize>) -> Result<Value, OpEnd>
    ensures { Answers (field_of a.now name.now place) result }
{
    let Opened::Node(_, fields) = a.open() else {
        return Err(wrong_kind(alloc));
    };
    field_at(alloc, fields, name, place)
}

fn field_at(
    alloc: Global,
    fields: &[Value],
    name: &str,
    place: Option<usize>,
) -> Result<Value, OpEnd>
    ensures { Answers (found_or (throwing (no_such_field name.now)) (option_and_then (slice_get fields.now) place)) result }
{
    match place {
        Some(place) if place < fields.len() => Ok(fields[place].share()?),
        _ => Err(no_such_field(alloc, name)),
    }
}
