//! What stands in parentheses: expressions, reducers and maps.

ghost use Rattle.std.specs.Prelude.{◌≡◌, IfOk};
ghost use Rattle.rl_forms.specs.Part.{Gives};
ghost use Rattle.rl_expression_forms.specs.Parenthesized.{alone_of, map_comprehension_of, map_of, parenthesized_of, reducer_of};

use crate::pair::{Pair, pairs_in};
use rl_base::{Place, Shared};
use rl_forms::words::{has_word, word_at};
use rl_forms::{Form, FormError, part_at};
use rl_syntax::Exp;
use rl_tokens::terminal;
use std::alloc::{AllocError, Global};

/// A key with its value.
impl Pair for (Shared<Exp>, Shared<Exp>) {
    ghost use Rattle.rl_expression_forms.specs.Parenthesized.{entry};

    ghost of_parts = { entry };

    #[tactic(auto, unfolding(crate::specs::Parenthesized::entry))]
    fn from_parts(alloc: Global, parts: &[Form]) -> Result<(Shared<Exp>, Shared<Exp>), FormError> {
        let key = part_at(alloc, parts, 0)?;
        match word_at(parts, 1)? {
            terminal::COLON => Ok((key, part_at(alloc, parts, 2)?)),
            _ => Err(FormError::Missing),
        }
    }
}

// `(k: v, ..)` or `()`
fn map(alloc: Global, place: Place, parts: &[Form]) -> Result<Exp, AllocError>
    ensures { IfOk result (λ it. it ≡ map_of place parts.now) }
{
    let entries = pairs_in(alloc, parts)?;
    Ok(Exp::Map { place, entries })
}

// `(k: v | conditions)`
#[tactic(auto, unfolding(crate::specs::Parenthesized::map_comprehension_of))]
fn map_comprehension(alloc: Global, place: Place, parts: &[Form]) -> Result<Exp, FormError>
    ensures { Gives (map_comprehension_of place parts.now) result }
{
    Ok(Exp::MapComprehension {
        place,
        key: part_at(alloc, parts, 1)?,
        value: part_at(alloc, parts, 3)?,
        conditions: part_at(alloc, parts, 5)?,
    })
}

// `(e | f | conditions)`
#[tactic(auto, unfolding(crate::specs::Parenthesized::reducer_of))]
fn reducer(alloc: Global, place: Place, parts: &[Form]) -> Result<Exp, FormError>
    ensures { Gives (reducer_of place parts.now) result }
{
    Ok(Exp::Reducer {
        place,
        start: part_at(alloc, parts, 1)?,
        step: part_at(alloc, parts, 3)?,
        conditions: part_at(alloc, parts, 5)?,
    })
}

// `(e)`
#[tactic(auto, unfolding(crate::specs::Parenthesized::alone_of))]
fn alone(alloc: Global, place: Place, parts: &[Form]) -> Result<Exp, FormError>
    ensures { Gives (alone_of place parts.now) result }
{
    let value = part_at(alloc, parts, 1)?;
    Ok(Exp::Parenthesized { place, value })
}

/// What stands in parentheses, by its marks.
#[tactic(auto, unfolding(crate::specs::Parenthesized::parenthesized_of))]
pub(crate) fn parenthesized(alloc: Global, place: Place, parts: &[Form]) -> Result<Exp, FormError>
    ensures { Gives (parenthesized_of place parts.now) result }
{
    let colon = has_word(terminal::COLON, parts);
    let bar = has_word(terminal::BAR, parts);
    if colon && bar {
        map_comprehension(alloc, place, parts)
    } else if colon || parts.len() == 2 {
        Ok(map(alloc, place, parts)?)
    } else if bar {
        reducer(alloc, place, parts)
    } else {
        alone(alloc, place, parts)
    }
}
