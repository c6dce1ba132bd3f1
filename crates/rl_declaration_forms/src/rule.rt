//! What a phrase of declarations says, by its rule.

ghost use Rattle.rl_forms.specs.Part.{Gives};
ghost use Rattle.rl_declaration_forms.specs.Rule.{declaration_form};

use crate::constructor::{data_definition, variant};
use crate::declaration::{import, qualified_name};
use crate::field::named_field;
use crate::function::{function, global};
use crate::type_form::type_from_parts;
use rl_base::{Place, Shared};
use rl_forms::{Form, FormError};
use rl_phrase_table::rules;
use std::alloc::Global;

/// What a phrase of the rule says that begins at the place and has these parts: a declaration other than a syntax definition,
/// the name of a module, a constructor, a field with a name, or a type. Missing is for other rules, and where a part that the
/// form needs is not there.
#[tactic(auto, unfolding(crate::specs::Rule::declaration_form))]
pub fn declaration_form(
    alloc: Global,
    rule: u32,
    place: Place,
    parts: &[Form],
) -> Result<Form, FormError>
    ensures { Gives (declaration_form rule place parts.now) result }
{
    match rule {
        rules::IMPORT => Ok(Form::Declaration(import(place, parts)?)),
        rules::DATA_DEFINITION => Ok(Form::Declaration(data_definition(alloc, place, parts)?)),
        rules::GLOBAL => Ok(Form::Declaration(global(alloc, place, parts)?)),
        rules::FUNCTION => Ok(Form::Declaration(function(alloc, place, parts)?)),
        rules::QUALIFIED_NAME => Ok(qualified_name(alloc, place, parts)?),
        rules::VARIANT => Ok(Form::Variant(variant(alloc, parts)?)),
        rules::FIELD => Ok(Form::Field(named_field(alloc, parts)?)),
        rules::TYPE => {
            let ty = type_from_parts(alloc, place, parts)?;
            Ok(Form::Type(Shared::new(alloc, ty)?))
        }
        _ => Err(FormError::Missing),
    }
}
