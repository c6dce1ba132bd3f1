//! Lists, ranges and sets, their elements, and conditions.

ghost use Rattle.std.specs.Prelude.{◌≡◌, IfOk};
ghost use Rattle.rl_forms.specs.Part.{Gives};
ghost use Rattle.rl_expression_forms.specs.Collection.{conditions_of, list_comprehension_of, list_literal_of, list_of, long_range_of, set_comprehension_of, set_literal_of, set_of, short_range_of, splice_of};

use rl_base::Place;
use rl_forms::words::{before_word, behind_word, has_word};
use rl_forms::{Form, FormError, part_at, row_in};
use rl_syntax::Exp;
use rl_tokens::terminal;
use std::alloc::{AllocError, Global};

/// `*e`
#[tactic(auto, unfolding(crate::specs::Collection::splice_of))]
pub(crate) fn splice(alloc: Global, place: Place, parts: &[Form]) -> Result<Exp, FormError>
    ensures { Gives (splice_of place parts.now) result }
{
    let value = part_at(alloc, parts, 1)?;
    Ok(Exp::Splice { place, value })
}

/// Several conditions.
pub(crate) fn conditions(alloc: Global, parts: &[Form]) -> Result<Form, AllocError>
    ensures { IfOk result (λ form. form ≡ conditions_of parts.now) }
{
    Ok(Form::Conditions(row_in(alloc, parts)?))
}

// `[a..b]`
#[tactic(auto, unfolding(crate::specs::Collection::short_range_of))]
fn short_range(alloc: Global, place: Place, parts: &[Form]) -> Result<Exp, FormError>
    ensures { Gives (short_range_of place parts.now) result }
{
    Ok(Exp::Range {
        place,
        first: part_at(alloc, parts, 1)?,
        second: None,
        end: part_at(alloc, parts, 3)?,
    })
}

// `[a, s..b]`
#[tactic(auto, unfolding(crate::specs::Collection::long_range_of))]
fn long_range(alloc: Global, place: Place, parts: &[Form]) -> Result<Exp, FormError>
    ensures { Gives (long_range_of place parts.now) result }
{
    Ok(Exp::Range {
        place,
        first: part_at(alloc, parts, 1)?,
        second: Some(part_at(alloc, parts, 3)?),
        end: part_at(alloc, parts, 5)?,
    })
}

// `[e, .. | conditions]`
#[tactic(auto, unfolding(crate::specs::Collection::list_comprehension_of))]
fn list_comprehension(alloc: Global, place: Place, parts: &[Form]) -> Result<Exp, FormError>
    ensures { Gives (list_comprehension_of place parts.now) result }
{
    Ok(Exp::ListComprehension {
        place,
        elements: row_in(alloc, before_word(terminal::BAR, parts))?,
        conditions: part_at(alloc, behind_word(terminal::BAR, parts), 0)?,
    })
}

// `[e, ..]`
fn list_literal(alloc: Global, place: Place, parts: &[Form]) -> Result<Exp, AllocError>
    ensures { IfOk result (λ it. it ≡ list_literal_of place parts.now) }
{
    let elements = row_in(alloc, parts)?;
    Ok(Exp::List { place, elements })
}

/// A list or a range, by its marks.
#[tactic(auto, unfolding(crate::specs::Collection::list_of))]
pub(crate) fn list(alloc: Global, place: Place, parts: &[Form]) -> Result<Exp, FormError>
    ensures { Gives (list_of place parts.now) result }
{
    if has_word(terminal::BAR, parts) {
        list_comprehension(alloc, place, parts)
    } else if has_word(terminal::DOTS, parts) {
        if has_word(terminal::COMMA, parts) {
            long_range(alloc, place, parts)
        } else {
            short_range(alloc, place, parts)
        }
    } else {
        Ok(list_literal(alloc, place, parts)?)
    }
}

// `{e, .. | conditions}`
#[tactic(auto, unfolding(crate::specs::Collection::set_comprehension_of))]
fn set_comprehension(alloc: Global, place: Place, parts: &[Form]) -> Result<Exp, FormError>
    ensures { Gives (set_comprehension_of place parts.now) result }
{
    Ok(Exp::SetComprehension {
        place,
        elements: row_in(alloc, before_word(terminal::BAR, parts))?,
        conditions: part_at(alloc, behind_word(terminal::BAR, parts), 0)?,
    })
}

// `{e, ..}`
fn set_literal(alloc: Global, place: Place, parts: &[Form]) -> Result<Exp, AllocError>
    ensures { IfOk result (λ it. it ≡ set_literal_of place parts.now) }
{
    let elements = row_in(alloc, parts)?;
    Ok(Exp::Set { place, elements })
}

/// A set, by its marks.
#[tactic(auto, unfolding(crate::specs::Collection::set_of))]
pub(crate) fn set(alloc: Global, place: Place, parts: &[Form]) -> Result<Exp, FormError>
    ensures { Gives (set_of place parts.now) result }
{
    if has_word(terminal::BAR, parts) {
        set_comprehension(alloc, place, parts)
    } else {
        Ok(set_literal(alloc, place, parts)?)
    }
}
