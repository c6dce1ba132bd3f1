//! Patterns without a name for the whole.

ghost use Rattle.rl_forms.specs.Part.{Gives};
ghost use Rattle.rl_pattern_forms.specs.Plain.{begun_by, constructor_of, plain_of, typed_of, typed_variable_of, typed_wildcard_of, wordy_of};

use crate::literals::{negative_pattern, token_pattern};
use rl_base::Place;
use rl_forms::words::is_word;
use rl_forms::{Form, FormError, part_at, row_in};
use rl_syntax::Pattern;
use rl_tokens::terminal;
use std::alloc::Global;

// `T x`
#[tactic(auto, unfolding(crate::specs::Plain::typed_variable_of))]
fn typed_variable(alloc: Global, place: Place, parts: &[Form]) -> Result<Pattern, FormError>
    ensures { Gives (typed_variable_of place parts.now) result }
{
    Ok(Pattern::TypedVariable {
        place,
        ty: part_at(alloc, parts, 0)?,
        variable: part_at(alloc, parts, 1)?,
    })
}

// `T _`
#[tactic(auto, unfolding(crate::specs::Plain::typed_wildcard_of))]
fn typed_wildcard(alloc: Global, place: Place, parts: &[Form]) -> Result<Pattern, FormError>
    ensures { Gives (typed_wildcard_of place parts.now) result }
{
    let ty = part_at(alloc, parts, 0)?;
    Ok(Pattern::TypedWildcard { place, ty })
}

// `T x` or `T _`
fn typed(alloc: Global, place: Place, parts: &[Form]) -> Result<Pattern, FormError>
    ensures { Gives (typed_of place parts.now) result }
{
    match parts.get(1) {
        Some(Form::Name(_)) => typed_variable(alloc, place, parts),
        Some(Form::Word(_, _)) => typed_wildcard(alloc, place, parts),
        _ => Err(FormError::Missing),
    }
}

// `c(p, ..)`
#[tactic(auto, unfolding(crate::specs::Plain::constructor_of))]
fn constructor(alloc: Global, place: Place, parts: &[Form]) -> Result<Pattern, FormError>
    ensures { Gives (constructor_of place parts.now) result }
{
    Ok(Pattern::Constructor {
        place,
        name: part_at(alloc, parts, 0)?,
        parts: row_in(alloc, parts)?,
    })
}

// `!p`, `/p`, `[p, *x, ..]`, `{p, *x, ..}` or `<p, ..>`
#[tactic(auto, unfolding(crate::specs::Plain::wordy_of))]
fn wordy(alloc: Global, place: Place, word: u32, parts: &[Form]) -> Result<Pattern, FormError>
    ensures { Gives (wordy_of place word parts.now) result }
{
    match word {
        terminal::BANG => Ok(Pattern::Negation {
            place,
            pattern: part_at(alloc, parts, 1)?,
        }),
        terminal::SLASH => Ok(Pattern::Descendant {
            place,
            pattern: part_at(alloc, parts, 1)?,
        }),
        terminal::OPEN_BRACKET => Ok(Pattern::List {
            place,
            elements: row_in(alloc, parts)?,
        }),
        terminal::OPEN_BRACE => Ok(Pattern::Set {
            place,
            elements: row_in(alloc, parts)?,
        }),
        terminal::LESS => Ok(Pattern::Tuple {
            place,
            parts: row_in(alloc, parts)?,
        }),
        _ => Err(FormError::Missing),
    }
}

// What its first part tells.
fn begun_by(alloc: Global, place: Place, first: &Form, parts: &[Form]) -> Result<Pattern, FormError>
    ensures { Gives (begun_by place first.now parts.now) result }
{
    match first {
        Form::Type(_) => typed(alloc, place, parts),
        Form::Name(_) => constructor(alloc, place, parts),
        Form::Word(_, word) => wordy(alloc, place, *word, parts),
        _ => Err(FormError::Missing),
    }
}

/// A pattern without a name for the whole.
#[tactic(auto, unfolding(crate::specs::Plain::plain_of))]
pub(crate) fn plain(alloc: Global, place: Place, parts: &[Form]) -> Result<Pattern, FormError>
    ensures { Gives (plain_of place parts.now) result }
{
    match parts {
        [] => Err(FormError::Missing),
        [token] => token_pattern(alloc, place, token),
        [first, second, ..] => {
            if is_word(terminal::MINUS, first) {
                negative_pattern(place, second)
            } else {
                begun_by(alloc, place, first, parts)
            }
        }
    }
}
