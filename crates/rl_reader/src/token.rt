//! What a token says.

ghost use Rattle.std.specs.Prelude.{◌≡◌, IfOk};
ghost use Rattle.rl_reader.specs.Token.{form_of_token, identifier_at, literal_of};

use crate::source::Source;
use rl_base::{Name, Place};
use rl_forms::Form;
use rl_literal::{class, fragment, integer, location, string};
use rl_syntax::Identifier;
use rl_tokens::terminal;
use std::alloc::{AllocError, Global};

// The name that the token is.
fn identifier(alloc: Global, source: &Source, token: u32) -> Result<Identifier, AllocError>
    ensures { IfOk result (λ it. it ≡ identifier_at source.now token) }
{
    Ok(Identifier {
        place: source.place(token),
        name: Name::from_str(alloc, source.text(token))?,
        number: 0,
    })
}

// A literal, or a word by its kind.
#[tactic(auto, unfolding(crate::specs::Token::literal_of))]
fn read_literal(alloc: Global, kind: u32, place: Place, token: &str) -> Result<Form, AllocError>
    ensures { IfOk result (λ form. form ≡ literal_of kind place token.now) }
{
    match kind {
        terminal::STRING => Ok(Form::Text(string(alloc, token)?)),
        terminal::STRING_HEAD | terminal::STRING_MIDDLE | terminal::STRING_TAIL => {
            Ok(Form::TextPiece(string(alloc, token)?))
        }
        terminal::INTEGER => Ok(Form::Integer(integer(token))),
        terminal::LOCATION => Ok(Form::Location(location(alloc, token)?)),
        terminal::CHARACTER_CLASS => Ok(Form::Ranges(class(alloc, token)?)),
        terminal::FRAGMENT => Ok(Form::Pieces(place, fragment(alloc, place, token)?)),
        _ => Ok(Form::Word(place, kind)),
    }
}

/// What the token says.
#[tactic(auto, unfolding(crate::specs::Token::form_of_token))]
pub(crate) fn read_token(alloc: Global, source: &Source, token: u32) -> Result<Form, AllocError>
    ensures { IfOk result (λ form. form ≡ form_of_token source.now token) }
{
    let kind = source.kind(token);
    match kind {
        terminal::UPPER_ID | terminal::LOWER_ID => {
            Ok(Form::Name(identifier(alloc, source, token)?))
        }
        _ => read_literal(alloc, kind, source.place(token), source.text(token)),
    }
}
