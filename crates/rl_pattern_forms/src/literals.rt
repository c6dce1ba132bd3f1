//! Patterns of one token, and negative integers.

ghost use Rattle.std.specs.Prelude.{◌≡◌, IfOk};
ghost use Rattle.rl_forms.specs.Part.{Gives};
ghost use Rattle.rl_pattern_forms.specs.Literals.{negative_of, token_of, word_of};

use rl_base::{Name, Place};
use rl_forms::{Form, FormError, Part};
use rl_syntax::Pattern;
use rl_tokens::terminal;
use std::alloc::{AllocError, Global};

// `true`, `false` or `_`
fn word_pattern(place: Place, word: u32) -> Result<Pattern, FormError>
    ensures { Gives (word_of place word) result }
{
    match word {
        terminal::TRUE => Ok(Pattern::Truth { place, value: true }),
        terminal::FALSE => Ok(Pattern::Truth {
            place,
            value: false,
        }),
        terminal::UNDERSCORE => Ok(Pattern::Wildcard { place }),
        _ => Err(FormError::Missing),
    }
}

fn share_path(path: &Option<Name>) -> Result<Option<Name>, AllocError>
    ensures { IfOk result (λ it. it ≡ path.now) }
{
    match path {
        None => Ok(None),
        Some(path) => Ok(Some(path.share()?)),
    }
}

/// The pattern that the token is.
#[tactic(auto, unfolding(crate::specs::Literals::token_of))]
pub(crate) fn token_pattern(alloc: Global, place: Place, token: &Form) -> Result<Pattern, FormError>
    ensures { Gives (token_of place token.now) result }
{
    match token {
        Form::Integer(value) => Ok(Pattern::Integer {
            place,
            value: *value,
        }),
        Form::Text(text) => Ok(Pattern::Text {
            place,
            value: text.share()?,
        }),
        Form::Location(path) => Ok(Pattern::Location {
            place,
            path: share_path(path)?,
        }),
        Form::Name(_) => Ok(Pattern::Variable {
            place,
            variable: Part::from_form(alloc, token)?,
        }),
        Form::Word(_, word) => word_pattern(place, *word),
        _ => Err(FormError::Missing),
    }
}

/// `-1`
pub(crate) fn negative_pattern(place: Place, integer: &Form) -> Result<Pattern, FormError>
    ensures { Gives (negative_of place integer.now) result }
{
    match integer {
        Form::Integer(value) => Ok(Pattern::Integer {
            place,
            value: value.wrapping_neg(),
        }),
        _ => Err(FormError::Missing),
    }
}
