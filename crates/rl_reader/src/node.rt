//! What a phrase says, from what its parts say.

ghost use Rattle.std.specs.Prelude.{◌≡◌, IfOk};
ghost use Rattle.rl_forms.specs.Part.{Gives};
ghost use Rattle.rl_reader.specs.Node.{first_unknown, form_of_node, form_of_rule};

use rl_base::Place;
use rl_declaration_forms::declaration_form;
use rl_expression_forms::expression_form;
use rl_forms::{Form, FormError};
use rl_pattern_forms::pattern_form;
use rl_production_forms::grammar_form;
use rl_statement_forms::statement_form;
use std::alloc::{AllocError, Global};

/// Where the first of the parts begins that has other parts than its rule.
pub(crate) fn first_unknown(parts: &[Form]) -> Option<Place>
    ensures { result ≡ first_unknown parts.now }
{
    for part in parts {
        if let Form::Unknown(place) = part {
            return Some(*place);
        }
    }
    None
}

// What a phrase of the rule says.
#[tactic(auto, unfolding(crate::specs::Node::form_of_rule))]
fn read_rule(alloc: Global, rule: u32, place: Place, parts: &[Form]) -> Result<Form, FormError>
    ensures { Gives (form_of_rule rule place parts.now) result }
{
    match expression_form(alloc, rule, place, parts) {
        Err(FormError::Missing) => {}
        found => return found,
    }
    match pattern_form(alloc, rule, place, parts) {
        Err(FormError::Missing) => {}
        found => return found,
    }
    match statement_form(alloc, rule, place, parts) {
        Err(FormError::Missing) => {}
        found => return found,
    }
    match declaration_form(alloc, rule, place, parts) {
        Err(FormError::Missing) => {}
        found => return found,
    }
    grammar_form(alloc, rule, place, parts)
}

/// What a phrase of the rule says, which begins at the place and has these parts.
#[tactic(auto, unfolding(crate::specs::Node::form_of_node))]
pub(crate) fn read_node(
    alloc: Global,
    rule: u32,
    place: Place,
    parts: &[Form],
) -> Result<Form, AllocError>
    ensures { IfOk result (λ form. form ≡ form_of_node rule place parts.now) }
{
    if let Some(place) = first_unknown(parts) {
        return Ok(Form::Unknown(place));
    }
    match read_rule(alloc, rule, place, parts) {
        Ok(form) => Ok(form),
        Err(FormError::Missing) => Ok(Form::Unknown(place)),
        Err(FormError::OutOfMemory) => Err(AllocError),
    }
}
