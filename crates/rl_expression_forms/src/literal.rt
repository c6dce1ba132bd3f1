//! Literals, tuples, calls and variables.

ghost use Rattle.std.specs.Prelude.{◌≡◌, IfOk};
ghost use Rattle.rl_forms.specs.Part.{Gives, part_at};
ghost use Rattle.rl_expression_forms.specs.Literal.{as_text_piece, call_of, interpolation_of, location_of, named_of, primary_of, tuple_of, word_of};

use crate::pair::{Pair, pairs_in};
use rl_base::{Name, Place, Shared};
use rl_forms::words::has_word;
use rl_forms::{Form, FormError, part_at, row_in};
use rl_syntax::{Exp, Identifier};
use rl_tokens::terminal;
use std::alloc::{AllocError, Global};

#[tactic(auto, unfolding(rl_forms::specs::Part::part_at))]
fn text_piece_at(parts: &[Form], at: usize) -> Result<Name, FormError>
    ensures { Gives (part_at as_text_piece parts.now at) result }
{
    match parts.get(at) {
        Some(Form::TextPiece(text)) => Ok(text.share()?),
        _ => Err(FormError::Missing),
    }
}

/// An interpolated value with the text behind it.
impl Pair for (Shared<Exp>, Name) {
    ghost use Rattle.rl_expression_forms.specs.Literal.{interpolated};

    ghost of_parts = { interpolated };

    #[tactic(auto, unfolding(crate::specs::Literal::interpolated))]
    fn from_parts(alloc: Global, parts: &[Form]) -> Result<(Shared<Exp>, Name), FormError> {
        Ok((part_at(alloc, parts, 0)?, text_piece_at(parts, 1)?))
    }
}

// `"text <e> text"`
fn interpolation(
    alloc: Global,
    place: Place,
    first: &Name,
    parts: &[Form],
) -> Result<Exp, AllocError>
    ensures { IfOk result (λ it. it ≡ interpolation_of place first.now parts.now) }
{
    Ok(Exp::Interpolation {
        place,
        first: first.share()?,
        rest: pairs_in(alloc, parts)?,
    })
}

// `<e, ..>`
fn tuple(alloc: Global, place: Place, parts: &[Form]) -> Result<Exp, AllocError>
    ensures { IfOk result (λ it. it ≡ tuple_of place parts.now) }
{
    let parts = row_in(alloc, parts)?;
    Ok(Exp::Tuple { place, parts })
}

// `true`, `false`, `it`, or what begins with `<`
fn by_word(alloc: Global, place: Place, word: u32, parts: &[Form]) -> Result<Exp, FormError>
    ensures { Gives (word_of place word parts.now) result }
{
    match word {
        terminal::TRUE => Ok(Exp::Truth { place, value: true }),
        terminal::FALSE => Ok(Exp::Truth {
            place,
            value: false,
        }),
        terminal::IT => Ok(Exp::It { place }),
        terminal::LESS => Ok(tuple(alloc, place, parts)?),
        _ => Err(FormError::Missing),
    }
}

fn location(place: Place, path: &Option<Name>) -> Result<Exp, AllocError>
    ensures { IfOk result (λ it. it ≡ location_of place path.now) }
{
    match path {
        None => Ok(Exp::Location { place, path: None }),
        Some(path) => Ok(Exp::Location {
            place,
            path: Some(path.share()?),
        }),
    }
}

// `name(arguments)`
fn call(alloc: Global, place: Place, name: Identifier, parts: &[Form]) -> Result<Exp, AllocError>
    ensures { IfOk result (λ it. it ≡ call_of place name parts.now) }
{
    let arguments = row_in(alloc, parts)?;
    Ok(Exp::Call {
        place,
        name,
        arguments,
    })
}

// A call or a variable.
fn named(alloc: Global, place: Place, name: &Identifier, parts: &[Form]) -> Result<Exp, AllocError>
    ensures { IfOk result (λ it. it ≡ named_of place name.now parts.now) }
{
    let name = name.share()?;
    if has_word(terminal::OPEN_PARENTHESIS, parts) {
        call(alloc, place, name, parts)
    } else {
        Ok(Exp::Variable { place, name })
    }
}

/// What its first token tells.
#[tactic(auto, unfolding(crate::specs::Literal::primary_of))]
pub(crate) fn primary(alloc: Global, place: Place, parts: &[Form]) -> Result<Exp, FormError>
    ensures { Gives (primary_of place parts.now) result }
{
    match parts.first() {
        Some(Form::Integer(value)) => Ok(Exp::Integer {
            place,
            value: *value,
        }),
        Some(Form::Text(text)) => Ok(Exp::Text {
            place,
            value: text.share()?,
        }),
        Some(Form::TextPiece(text)) => Ok(interpolation(alloc, place, text, parts)?),
        Some(Form::Location(path)) => Ok(location(place, path)?),
        Some(Form::Name(name)) => Ok(named(alloc, place, name, parts)?),
        Some(Form::Word(_, word)) => by_word(alloc, place, *word, parts),
        _ => Err(FormError::Missing),
    }
}
