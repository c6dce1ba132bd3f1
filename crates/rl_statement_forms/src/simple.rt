//! Statements without other statements in them.

ghost use Rattle.std.specs.Prelude.{◌≡◌, IfOk};
ghost use Rattle.rl_forms.specs.Part.{Gives};
ghost use Rattle.rl_statement_forms.specs.Simple.{bare, effect, effect_of, expression_statement_of, return_of, simple_of, word_statement_of};

use crate::assignment::{assign, declaration, tuple_assignment};
use crate::right_side::last_right_side;
use rl_base::{Place, Shared};
use rl_forms::{Form, FormError, part_at};
use rl_syntax::{Exp, Stat};
use rl_tokens::terminal;
use std::alloc::{AllocError, Global};

// A statement that is a word alone.
fn bare(place: Place, word: u32) -> Option<Stat>
    ensures { result ≡ bare place word }
{
    match word {
        terminal::FAIL => Some(Stat::Fail { place }),
        terminal::BREAK => Some(Stat::Break { place }),
        terminal::CONTINUE => Some(Stat::Continue { place }),
        terminal::SEMICOLON => Some(Stat::Empty { place }),
        _ => None,
    }
}

// What the word does with the value.
fn effect(place: Place, word: u32, value: Shared<Exp>) -> Result<Stat, FormError>
    ensures { Gives (effect place word value) result }
{
    match word {
        terminal::INSERT => Ok(Stat::Insert { place, value }),
        terminal::APPEND => Ok(Stat::Append { place, value }),
        terminal::THROW => Ok(Stat::Throw { place, value }),
        _ => Err(FormError::Missing),
    }
}

// `insert e;`, `append e;` or `throw e;`
#[tactic(auto, unfolding(crate::specs::Simple::effect_of))]
fn effect_statement(
    alloc: Global,
    place: Place,
    word: u32,
    parts: &[Form],
) -> Result<Stat, FormError>
    ensures { Gives (effect_of place word parts.now) result }
{
    effect(place, word, part_at(alloc, parts, 1)?)
}

// `return;` or `return e;`
#[tactic(auto, unfolding(crate::specs::Simple::return_of))]
fn return_statement(alloc: Global, place: Place, parts: &[Form]) -> Result<Stat, AllocError>
    ensures { IfOk result (λ it. it ≡ return_of place parts.now) }
{
    match last_right_side(alloc, parts) {
        Ok(value) => Ok(Stat::ReturnValue { place, value }),
        Err(FormError::Missing) => Ok(Stat::Return { place }),
        Err(FormError::OutOfMemory) => Err(AllocError),
    }
}

// A statement that begins with the word or symbol.
#[tactic(auto, unfolding(crate::specs::Simple::word_statement_of))]
fn word_statement(alloc: Global, place: Place, word: u32, parts: &[Form]) -> Result<Stat, FormError>
    ensures { Gives (word_statement_of place word parts.now) result }
{
    if let Some(statement) = bare(place, word) {
        return Ok(statement);
    }
    match word {
        terminal::RETURN => Ok(return_statement(alloc, place, parts)?),
        terminal::LESS => tuple_assignment(alloc, place, parts),
        _ => effect_statement(alloc, place, word, parts),
    }
}

/// `e;`
#[tactic(auto, unfolding(crate::specs::Simple::expression_statement_of))]
pub(crate) fn expression_statement(
    alloc: Global,
    place: Place,
    parts: &[Form],
) -> Result<Stat, FormError>
    ensures { Gives (expression_statement_of place parts.now) result }
{
    let value = part_at(alloc, parts, 0)?;
    Ok(Stat::Expression { place, value })
}

/// A statement without other statements in it, by its first part.
#[tactic(auto, unfolding(crate::specs::Simple::simple_of))]
pub(crate) fn simple(alloc: Global, place: Place, parts: &[Form]) -> Result<Stat, FormError>
    ensures { Gives (simple_of place parts.now) result }
{
    match parts.first() {
        Some(Form::Word(_, word)) => word_statement(alloc, place, *word, parts),
        Some(Form::Type(_)) => declaration(alloc, place, parts),
        Some(Form::Name(_)) => assign(alloc, place, parts),
        _ => expression_statement(alloc, place, parts),
    }
}
