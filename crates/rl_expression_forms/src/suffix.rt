//! What stands behind a value.

ghost use Rattle.std.specs.Prelude.{◌≡◌, IfOk};
ghost use Rattle.rl_forms.specs.Part.{Gives};
ghost use Rattle.rl_expression_forms.specs.Suffix.{bounds_of, closure, field_of, slice, subscript_of, suffix_of, suffixed_of};

use rl_base::{Place, Shared};
use rl_forms::words::{behind_word, word_at};
use rl_forms::{Form, FormError, optional_at, part_at, row_in};
use rl_syntax::{Exp, Suffix};
use rl_tokens::terminal;
use std::alloc::{AllocError, Global};

/// What stands on both sides of `..` in a slice.
#[tactic(auto, unfolding(crate::specs::Suffix::bounds_of))]
pub(crate) fn bounds(alloc: Global, parts: &[Form]) -> Result<Form, AllocError>
    ensures { IfOk result (λ form. form ≡ bounds_of parts.now) }
{
    let from = optional_at(alloc, parts, 0)?;
    let to = optional_at(alloc, behind_word(terminal::DOTS, parts), 0)?;
    Ok(Form::Bounds(from, to))
}

fn share_bound(bound: &Option<Shared<Exp>>) -> Result<Option<Shared<Exp>>, AllocError>
    ensures { IfOk result (λ it. it ≡ bound.now) }
{
    match bound {
        None => Ok(None),
        Some(bound) => Ok(Some(bound.share()?)),
    }
}

// `[a..b]`
fn slice(
    place: Place,
    from: &Option<Shared<Exp>>,
    to: &Option<Shared<Exp>>,
) -> Result<Suffix, AllocError>
    ensures { IfOk result (λ it. it ≡ slice place from.now to.now) }
{
    Ok(Suffix::Slice {
        place,
        from: share_bound(from)?,
        to: share_bound(to)?,
    })
}

// `[i]` or `[a..b]`
#[tactic(auto, unfolding(crate::specs::Suffix::subscript_of))]
fn subscript(alloc: Global, place: Place, parts: &[Form]) -> Result<Suffix, FormError>
    ensures { Gives (subscript_of place parts.now) result }
{
    match parts.get(1) {
        Some(Form::Bounds(from, to)) => Ok(slice(place, from, to)?),
        _ => Ok(Suffix::Subscript {
            place,
            index: part_at(alloc, parts, 1)?,
        }),
    }
}

// `.f`
#[tactic(auto, unfolding(crate::specs::Suffix::field_of))]
fn field(alloc: Global, place: Place, parts: &[Form]) -> Result<Suffix, FormError>
    ensures { Gives (field_of place parts.now) result }
{
    let name = part_at(alloc, parts, 1)?;
    Ok(Suffix::Field { place, name })
}

// `+` or `*`
fn closure(place: Place, word: u32) -> Result<Suffix, FormError>
    ensures { Gives (closure place word) result }
{
    match word {
        terminal::PLUS => Ok(Suffix::TransitiveClosure { place }),
        terminal::STAR => Ok(Suffix::ReflexiveClosure { place }),
        _ => Err(FormError::Missing),
    }
}

/// A suffix.
#[tactic(auto, unfolding(crate::specs::Suffix::suffix_of))]
pub(crate) fn suffix(alloc: Global, place: Place, parts: &[Form]) -> Result<Suffix, FormError>
    ensures { Gives (suffix_of place parts.now) result }
{
    match word_at(parts, 0)? {
        terminal::OPEN_BRACKET => subscript(alloc, place, parts),
        terminal::DOT => field(alloc, place, parts),
        word => closure(place, word),
    }
}

/// A value with suffixes.
#[tactic(auto, unfolding(crate::specs::Suffix::suffixed_of))]
pub(crate) fn suffixed(alloc: Global, place: Place, parts: &[Form]) -> Result<Exp, FormError>
    ensures { Gives (suffixed_of place parts.now) result }
{
    Ok(Exp::Suffixed {
        place,
        value: part_at(alloc, parts, 0)?,
        suffixes: row_in(alloc, parts)?,
    })
}
