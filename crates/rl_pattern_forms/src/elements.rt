//! Elements of list patterns and set patterns.

ghost use Rattle.rl_forms.specs.Part.{Gives};
ghost use Rattle.rl_pattern_forms.specs.Elements.{named_rest_of, rest_of, typed_rest_of};

use rl_base::Place;
use rl_forms::{Form, FormError, part_at};
use rl_syntax::PatternElement;
use std::alloc::Global;

// `*x`
#[tactic(auto, unfolding(crate::specs::Elements::named_rest_of))]
fn named_rest(alloc: Global, place: Place, parts: &[Form]) -> Result<PatternElement, FormError>
    ensures { Gives (named_rest_of place parts.now) result }
{
    let variable = part_at(alloc, parts, 1)?;
    Ok(PatternElement::Rest { place, variable })
}

// `*T x`
#[tactic(auto, unfolding(crate::specs::Elements::typed_rest_of))]
fn typed_rest(alloc: Global, place: Place, parts: &[Form]) -> Result<PatternElement, FormError>
    ensures { Gives (typed_rest_of place parts.now) result }
{
    Ok(PatternElement::TypedRest {
        place,
        ty: part_at(alloc, parts, 1)?,
        variable: part_at(alloc, parts, 2)?,
    })
}

/// What begins with `*`.
#[tactic(auto, unfolding(crate::specs::Elements::rest_of))]
pub(crate) fn rest(alloc: Global, place: Place, parts: &[Form]) -> Result<PatternElement, FormError>
    ensures { Gives (rest_of place parts.now) result }
{
    match parts.get(1) {
        Some(Form::Type(_)) => typed_rest(alloc, place, parts),
        Some(Form::Word(_, _)) => Ok(PatternElement::AnyRest { place }),
        _ => named_rest(alloc, place, parts),
    }
}
