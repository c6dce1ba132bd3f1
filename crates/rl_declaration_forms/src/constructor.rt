//! Data definitions and their constructors.

ghost use Rattle.rl_forms.specs.Part.{Gives};
ghost use Rattle.rl_declaration_forms.specs.Constructor.{data_of, variant_of};

use rl_base::Place;
use rl_forms::{Form, FormError, first_in, part_at, row_in};
use rl_syntax::{Decl, Variant};
use std::alloc::Global;

/// A constructor.
#[tactic(auto, unfolding(crate::specs::Constructor::variant_of))]
pub(crate) fn variant(alloc: Global, parts: &[Form]) -> Result<Variant, FormError>
    ensures { Gives (variant_of parts.now) result }
{
    Ok(Variant {
        name: part_at(alloc, parts, 0)?,
        fields: row_in(alloc, parts)?,
    })
}

/// `data T = variants;`
#[tactic(auto, unfolding(crate::specs::Constructor::data_of))]
pub(crate) fn data_definition(
    alloc: Global,
    place: Place,
    parts: &[Form],
) -> Result<Decl, FormError>
    ensures { Gives (data_of place parts.now) result }
{
    Ok(Decl::Data {
        place,
        name: first_in(alloc, parts)?,
        variants: row_in(alloc, parts)?,
    })
}
