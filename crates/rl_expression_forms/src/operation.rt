//! Operations on two or three parts.

ghost use Rattle.std.specs.Prelude.{◌≡◌};
ghost use Rattle.rl_forms.specs.Part.{Gives};
ghost use Rattle.rl_expression_forms.specs.Operation.{binary, binary_of, comparison, conditional_of, is_of, match_of, matched};

use rl_base::{Place, Shared};
use rl_forms::words::word_at;
use rl_forms::{Form, FormError, optional_at, part_at};
use rl_syntax::{Comparison, Exp, Pattern};
use rl_tokens::terminal;
use std::alloc::Global;

/// `c ? a : b`, or `a ? b`
#[tactic(auto, unfolding(crate::specs::Operation::conditional_of))]
pub(crate) fn conditional(alloc: Global, place: Place, parts: &[Form]) -> Result<Exp, FormError>
    ensures { Gives (conditional_of place parts.now) result }
{
    let first = part_at(alloc, parts, 0)?;
    let second = part_at(alloc, parts, 2)?;
    match optional_at(alloc, parts, 4)? {
        Some(third) => Ok(Exp::Conditional {
            place,
            condition: first,
            then: second,
            otherwise: third,
        }),
        None => Ok(Exp::Fallback {
            place,
            value: first,
            otherwise: second,
        }),
    }
}

fn comparison(word: u32) -> Option<Comparison>
    ensures { result ≡ comparison word }
{
    match word {
        terminal::LESS_OR_EQUAL => Some(Comparison::LessOrEqual),
        terminal::GREATER_OR_EQUAL => Some(Comparison::GreaterOrEqual),
        terminal::LESS => Some(Comparison::Less),
        terminal::GREATER => Some(Comparison::Greater),
        terminal::IN => Some(Comparison::In),
        terminal::NOTIN => Some(Comparison::NotIn),
        _ => None,
    }
}

// The operation of the word on both sides.
fn binary(place: Place, word: u32, left: Shared<Exp>, right: Shared<Exp>) -> Result<Exp, FormError>
    ensures { Gives (binary place word left right) result }
{
    if let Some(comparison) = comparison(word) {
        return Ok(Exp::Compared {
            place,
            left,
            comparison,
            right,
        });
    }
    match word {
        terminal::IMPLIES => Ok(Exp::Implication { place, left, right }),
        terminal::EQUIVALENT => Ok(Exp::Equivalence { place, left, right }),
        terminal::EQUAL => Ok(Exp::Equal { place, left, right }),
        terminal::NOT_EQUAL => Ok(Exp::NotEqual { place, left, right }),
        _ => Err(FormError::Missing),
    }
}

/// `a op b`, where the operators do not chain
#[tactic(auto, unfolding(crate::specs::Operation::binary_of))]
pub(crate) fn binary_operation(
    alloc: Global,
    place: Place,
    parts: &[Form],
) -> Result<Exp, FormError>
    ensures { Gives (binary_of place parts.now) result }
{
    let left = part_at(alloc, parts, 0)?;
    let word = word_at(parts, 1)?;
    let right = part_at(alloc, parts, 2)?;
    binary(place, word, left, right)
}

/// `e is name`
#[tactic(auto, unfolding(crate::specs::Operation::is_of))]
pub(crate) fn name_test(alloc: Global, place: Place, parts: &[Form]) -> Result<Exp, FormError>
    ensures { Gives (is_of place parts.now) result }
{
    Ok(Exp::Is {
        place,
        value: part_at(alloc, parts, 0)?,
        name: part_at(alloc, parts, 2)?,
    })
}

// What the word asks of the pattern and the value.
fn matched(
    place: Place,
    word: u32,
    pattern: Shared<Pattern>,
    value: Shared<Exp>,
) -> Result<Exp, FormError>
    ensures { Gives (matched place word pattern value) result }
{
    match word {
        terminal::MATCHES => Ok(Exp::Match {
            place,
            pattern,
            value,
        }),
        terminal::MATCHES_NOT => Ok(Exp::NoMatch {
            place,
            pattern,
            value,
        }),
        terminal::ENUMERATES => Ok(Exp::Enumeration {
            place,
            pattern,
            collection: value,
        }),
        _ => Err(FormError::Missing),
    }
}

/// `p := e`, `p !:= e` or `p <- e`
#[tactic(auto, unfolding(crate::specs::Operation::match_of))]
pub(crate) fn matching(alloc: Global, place: Place, parts: &[Form]) -> Result<Exp, FormError>
    ensures { Gives (match_of place parts.now) result }
{
    let pattern = part_at(alloc, parts, 0)?;
    let word = word_at(parts, 1)?;
    let value = part_at(alloc, parts, 2)?;
    matched(place, word, pattern, value)
}
