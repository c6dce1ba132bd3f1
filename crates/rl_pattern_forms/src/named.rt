//! Patterns with a name for the whole.

ghost use Rattle.rl_forms.specs.Part.{Gives};
ghost use Rattle.rl_pattern_forms.specs.Named.{binding_of, named_of, typed_binding_of};

use rl_base::Place;
use rl_forms::{Form, FormError, part_at};
use rl_syntax::Pattern;
use std::alloc::Global;

// `x : p`
#[tactic(auto, unfolding(crate::specs::Named::binding_of))]
fn binding(alloc: Global, place: Place, parts: &[Form]) -> Result<Pattern, FormError>
    ensures { Gives (binding_of place parts.now) result }
{
    Ok(Pattern::Binding {
        place,
        variable: part_at(alloc, parts, 0)?,
        pattern: part_at(alloc, parts, 2)?,
    })
}

// `T x : p`
#[tactic(auto, unfolding(crate::specs::Named::typed_binding_of))]
fn typed_binding(alloc: Global, place: Place, parts: &[Form]) -> Result<Pattern, FormError>
    ensures { Gives (typed_binding_of place parts.now) result }
{
    Ok(Pattern::TypedBinding {
        place,
        ty: part_at(alloc, parts, 0)?,
        variable: part_at(alloc, parts, 1)?,
        pattern: part_at(alloc, parts, 3)?,
    })
}

/// A pattern with a name for the whole.
#[tactic(auto, unfolding(crate::specs::Named::named_of))]
pub(crate) fn named(alloc: Global, place: Place, parts: &[Form]) -> Result<Pattern, FormError>
    ensures { Gives (named_of place parts.now) result }
{
    match parts.first() {
        Some(Form::Type(_)) => typed_binding(alloc, place, parts),
        _ => binding(alloc, place, parts),
    }
}
