//! Symbols with what limits them.

ghost use Rattle.std.specs.Prelude.{◌≡◌, IfOk};
ghost use Rattle.rl_forms.specs.Part.{Gives};
ghost use Rattle.rl_production_forms.specs.Symbol.{after_by, afters_in, limited_of, negation_of, plain_of, reserved_of, step, symbol_of};

use rl_base::Row;
use rl_forms::words::word_at;
use rl_forms::{Form, FormError, part_at};
use rl_productions::{After, Limit, Sym};
use rl_syntax::Identifier;
use rl_tokens::terminal;
use std::alloc::{AllocError, Global};

// `\ K`, from what stands behind the backslash.
#[tactic(auto, unfolding(crate::specs::Symbol::reserved_of))]
fn reserved(alloc: Global, behind: &[Form]) -> Result<After, FormError>
    ensures { Gives (reserved_of behind.now) result }
{
    let name: Identifier = part_at(alloc, behind, 0)?;
    Ok(After::Reserve(name.name, name.place))
}

// The limit that the word and what stands behind it say.
fn after_by(alloc: Global, word: u32, behind: &[Form]) -> Result<After, FormError>
    ensures { Gives (after_by word behind.now) result }
{
    match word {
        terminal::NOT_FOLLOWED => Ok(After::Follow(Limit {
            negated: true,
            near: part_at(alloc, behind, 0)?,
        })),
        terminal::FOLLOWED => Ok(After::Follow(Limit {
            negated: false,
            near: part_at(alloc, behind, 0)?,
        })),
        terminal::BACKSLASH => reserved(alloc, behind),
        _ => Err(FormError::Missing),
    }
}

// The limit that begins with the part.
fn step(alloc: Global, part: &Form, behind: &[Form]) -> Result<After, FormError>
    ensures { Gives (step part.now behind.now) result }
{
    match part {
        Form::Word(_, word) => after_by(alloc, *word, behind),
        _ => Err(FormError::Missing),
    }
}

// The limits behind a symbol.
fn afters(alloc: Global, parts: &[Form]) -> Result<Row<After>, AllocError>
    ensures { IfOk result (λ row. row ≡ afters_in parts.now) }
{
    let mut found = Vec::new(alloc);
    let mut rest = parts;
    'parts: while let Some((part, behind)) = rest.split_first() {
        match step(alloc, part, behind) {
            Ok(after) => found.push(after)?,
            Err(FormError::Missing) => {}
            Err(FormError::OutOfMemory) => return Err(AllocError),
        }
        rest = behind;
    }
    Row::from_vec(alloc, found)
}

// Whether what stands before the symbol must not stand there, if anything is said of that.
#[tactic(auto, unfolding(crate::specs::Symbol::negation_of))]
fn negation(parts: &[Form]) -> Result<bool, FormError>
    ensures { Gives (negation_of parts.now) result }
{
    match word_at(parts, 1)? {
        terminal::NOT_PRECEDED => Ok(true),
        terminal::PRECEDED => Ok(false),
        _ => Err(FormError::Missing),
    }
}

// A symbol without a limit before it.
#[tactic(auto, unfolding(crate::specs::Symbol::plain_of))]
fn plain(alloc: Global, parts: &[Form]) -> Result<Sym, FormError>
    ensures { Gives (plain_of parts.now) result }
{
    Ok(Sym {
        before: None,
        rep: part_at(alloc, parts, 0)?,
        after: afters(alloc, parts)?,
    })
}

// A symbol with a limit before it.
#[tactic(auto, unfolding(crate::specs::Symbol::limited_of))]
fn limited(alloc: Global, negated: bool, parts: &[Form]) -> Result<Sym, FormError>
    ensures { Gives (limited_of negated parts.now) result }
{
    let near = part_at(alloc, parts, 0)?;
    Ok(Sym {
        before: Some(Limit { negated, near }),
        rep: part_at(alloc, parts, 2)?,
        after: afters(alloc, parts)?,
    })
}

/// A symbol.
#[tactic(auto, unfolding(crate::specs::Symbol::symbol_of))]
pub(crate) fn symbol(alloc: Global, parts: &[Form]) -> Result<Sym, FormError>
    ensures { Gives (symbol_of parts.now) result }
{
    match negation(parts) {
        Ok(negated) => limited(alloc, negated, parts),
        Err(FormError::Missing) => plain(alloc, parts),
        Err(FormError::OutOfMemory) => Err(FormError::OutOfMemory),
    }
}
