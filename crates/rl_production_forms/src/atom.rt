//! Classes, atoms and repetitions.

ghost use Rattle.rl_forms.specs.Part.{Gives};
ghost use Rattle.rl_production_forms.specs.Atom.{atom_of, class_of, near_of, plain_repetition_of, repetition_of, separated_of};

use rl_base::Place;
use rl_forms::words::{has_word, word_at};
use rl_forms::{Form, FormError, part_at};
use rl_productions::{Atom, CharClass, Near, Rep};
use rl_tokens::terminal;
use std::alloc::Global;

/// A class, or the complement of one. Its ranges stand last.
#[tactic(auto, unfolding(crate::specs::Atom::class_of))]
pub(crate) fn class(place: Place, parts: &[Form]) -> Result<CharClass, FormError>
    ensures { Gives (class_of place parts.now) result }
{
    match parts.last() {
        Some(Form::Ranges(ranges)) => Ok(CharClass {
            place,
            complement: has_word(terminal::BANG, parts),
            items: ranges.share()?,
        }),
        _ => Err(FormError::Missing),
    }
}

/// A text that adjoins a symbol.
#[tactic(auto, unfolding(crate::specs::Atom::near_of))]
pub(crate) fn near(alloc: Global, parts: &[Form]) -> Result<Near, FormError>
    ensures { Gives (near_of parts.now) result }
{
    Ok(Near::Literal(part_at(alloc, parts, 0)?))
}

/// A text or a sort.
#[tactic(auto, unfolding(crate::specs::Atom::atom_of))]
pub(crate) fn atom(parts: &[Form]) -> Result<Atom, FormError>
    ensures { Gives (atom_of parts.now) result }
{
    match parts.first() {
        Some(Form::Text(text)) => Ok(Atom::Literal(text.share()?)),
        Some(Form::Name(name)) => Ok(Atom::Sort(name.name.share()?, name.place)),
        _ => Err(FormError::Missing),
    }
}

// `{A ","}*` or `{A ","}+`
#[tactic(auto, unfolding(crate::specs::Atom::separated_of))]
fn separated_repetition(alloc: Global, parts: &[Form]) -> Result<Rep, FormError>
    ensures { Gives (separated_of parts.now) result }
{
    let atom = part_at(alloc, parts, 1)?;
    let text = part_at(alloc, parts, 2)?;
    match word_at(parts, 4)? {
        terminal::STAR => Ok(Rep::SepStar(atom, text)),
        terminal::PLUS => Ok(Rep::SepPlus(atom, text)),
        _ => Err(FormError::Missing),
    }
}

// `A*`, `A+` or `A?`
#[tactic(auto, unfolding(crate::specs::Atom::plain_repetition_of))]
fn plain_repetition(alloc: Global, parts: &[Form]) -> Result<Rep, FormError>
    ensures { Gives (plain_repetition_of parts.now) result }
{
    let atom = part_at(alloc, parts, 0)?;
    match word_at(parts, 1)? {
        terminal::STAR => Ok(Rep::Star(atom)),
        terminal::PLUS => Ok(Rep::Plus(atom)),
        terminal::QUESTION => Ok(Rep::Opt(atom)),
        _ => Err(FormError::Missing),
    }
}

/// A repetition.
#[tactic(auto, unfolding(crate::specs::Atom::repetition_of))]
pub(crate) fn repetition(alloc: Global, parts: &[Form]) -> Result<Rep, FormError>
    ensures { Gives (repetition_of parts.now) result }
{
    if has_word(terminal::OPEN_BRACE, parts) {
        separated_repetition(alloc, parts)
    } else {
        plain_repetition(alloc, parts)
    }
}
