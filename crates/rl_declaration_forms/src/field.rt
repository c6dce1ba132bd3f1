//! Fields.

ghost use Rattle.rl_forms.specs.Part.{Gives};
ghost use Rattle.rl_declaration_forms.specs.Field.{named_field_of};

use rl_forms::{Form, FormError, part_at};
use rl_syntax::Field;
use std::alloc::Global;

/// A type with a name.
#[tactic(auto, unfolding(crate::specs::Field::named_field_of))]
pub(crate) fn named_field(alloc: Global, parts: &[Form]) -> Result<Field, FormError>
    ensures { Gives (named_field_of parts.now) result }
{
    Ok(Field {
        ty: part_at(alloc, parts, 0)?,
        name: Some(part_at(alloc, parts, 1)?),
    })
}
