//! Names of sorts as arguments, and fragments.

ghost use Rattle.rl_forms.specs.Part.{Gives};
ghost use Rattle.rl_expression_forms.specs.Argument.{argument_of, concrete_of};

use rl_base::{Place, Shared};
use rl_forms::{Form, FormError, optional_at, part_at};
use rl_syntax::{Concrete, Exp, Identifier};
use std::alloc::Global;

/// `#S` or `#start[S]`
#[tactic(auto, unfolding(crate::specs::Argument::argument_of))]
pub(crate) fn argument(alloc: Global, place: Place, parts: &[Form]) -> Result<Exp, FormError>
    ensures { Gives (argument_of place parts.now) result }
{
    let name: Identifier = part_at(alloc, parts, 1)?;
    match optional_at(alloc, parts, 3)? {
        Some(sort) => Ok(Exp::StartSort {
            place,
            start_place: name.place,
            sort,
        }),
        None => Ok(Exp::TypeName { place, name }),
    }
}

/// A fragment: its sort in parentheses, and its text.
#[tactic(auto, unfolding(crate::specs::Argument::concrete_of))]
pub(crate) fn fragment(alloc: Global, place: Place, parts: &[Form]) -> Result<Form, FormError>
    ensures { Gives (concrete_of place parts.now) result }
{
    let sort: Identifier = part_at(alloc, parts, 1)?;
    match parts.get(3) {
        Some(Form::Pieces(text_place, pieces)) => {
            let concrete = Concrete {
                place,
                sort_place: sort.place,
                sort: sort.name,
                text_place: *text_place,
                pieces: pieces.share()?,
                number: 0,
            };
            Ok(Form::Fragment(Shared::new(alloc, concrete)?))
        }
        _ => Err(FormError::Missing),
    }
}
