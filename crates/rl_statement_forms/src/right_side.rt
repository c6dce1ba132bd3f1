//! Right sides: an expression, or a loop for the list of the values that it appends.

ghost use Rattle.std.specs.Prelude.{◌≡◌, IfOk};
ghost use Rattle.rl_forms.specs.Part.{Gives};
ghost use Rattle.rl_statement_forms.specs.RightSide.{as_right_side, last_right_side, loop_value};

use rl_base::Shared;
use rl_forms::{Form, FormError, Part};
use rl_syntax::{Exp, Stat};
use std::alloc::{AllocError, Global};

fn loop_value(alloc: Global, statement: &Shared<Stat>) -> Result<Shared<Exp>, AllocError>
    ensures { IfOk result (λ it. it ≡ loop_value statement.now) }
{
    let place = statement.get().place();
    let statement = statement.share()?;
    Shared::new(alloc, Exp::Loop { place, statement })
}

// The part as a right side.
fn right_side(alloc: Global, part: &Form) -> Result<Shared<Exp>, FormError>
    ensures { Gives (as_right_side part.now) result }
{
    match part {
        Form::Statement(statement) => Ok(loop_value(alloc, statement)?),
        _ => Part::from_form(alloc, part),
    }
}

/// The last part, which is a right side.
#[tactic(auto, unfolding(crate::specs::RightSide::last_right_side))]
pub(crate) fn last_right_side(alloc: Global, parts: &[Form]) -> Result<Shared<Exp>, FormError>
    ensures { Gives (last_right_side parts.now) result }
{
    match parts.last() {
        Some(part) => right_side(alloc, part),
        None => Err(FormError::Missing),
    }
}
