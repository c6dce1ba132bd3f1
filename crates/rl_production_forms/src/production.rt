//! Productions, alternatives and levels.

ghost use Rattle.std.specs.Prelude.{◌≡◌, IfOk};
ghost use Rattle.rl_forms.specs.Part.{Gives};
ghost use Rattle.rl_production_forms.specs.Production.{alternative_of, associativity_named, associativity_of, label_of, level_of, production_of};

use rl_base::{Name, Place};
use rl_forms::words::has_word;
use rl_forms::{Form, FormError, last_in, optional_at, row_in};
use rl_productions::{Alt, Assoc, Level, Prod};
use rl_syntax::Identifier;
use rl_tokens::terminal;
use std::alloc::{AllocError, Global};

// The label, which stands before a colon. The word `bracket` may stand before it.
#[tactic(auto, unfolding(crate::specs::Production::label_of))]
fn label(alloc: Global, parts: &[Form]) -> Result<(Name, Place), FormError>
    ensures { Gives (label_of parts.now) result }
{
    if !has_word(terminal::COLON, parts) {
        return Err(FormError::Missing);
    }
    let name: Identifier = last_in(alloc, parts)?;
    Ok((name.name, name.place))
}

/// A production.
pub(crate) fn production(alloc: Global, parts: &[Form]) -> Result<Prod, AllocError>
    ensures { IfOk result (λ it. it ≡ production_of parts.now) }
{
    let label = match label(alloc, parts) {
        Ok(label) => Some(label),
        Err(FormError::Missing) => None,
        Err(FormError::OutOfMemory) => return Err(AllocError),
    };
    Ok(Prod {
        label,
        symbols: row_in(alloc, parts)?,
    })
}

// The mark that is this name.
fn associativity_named(name: &str) -> Result<Assoc, FormError>
    ensures { Gives (associativity_named name.now) result }
{
    match name {
        "left" => Ok(Assoc::Left),
        "right" => Ok(Assoc::Right),
        "assoc" => Ok(Assoc::Assoc),
        _ => Err(FormError::Missing),
    }
}

/// The mark of an alternative.
#[tactic(auto, unfolding(crate::specs::Production::associativity_of))]
pub(crate) fn associativity(parts: &[Form]) -> Result<Assoc, FormError>
    ensures { Gives (associativity_of parts.now) result }
{
    match parts.first() {
        Some(Form::Word(_, _)) => Ok(Assoc::NonAssoc),
        Some(Form::Name(name)) => associativity_named(name.name.as_str()),
        _ => Err(FormError::Missing),
    }
}

/// A production with a mark, or several in parentheses.
pub(crate) fn alternative(alloc: Global, parts: &[Form]) -> Result<Alt, AllocError>
    ensures { IfOk result (λ it. it ≡ alternative_of parts.now) }
{
    Ok(Alt {
        mark: optional_at(alloc, parts, 0)?,
        prods: row_in(alloc, parts)?,
    })
}

/// Several alternatives.
pub(crate) fn level(alloc: Global, parts: &[Form]) -> Result<Level, AllocError>
    ensures { IfOk result (λ it. it ≡ level_of parts.now) }
{
    Ok(Level {
        alts: row_in(alloc, parts)?,
    })
}
