//! What a phrase of expressions says, by its rule.

ghost use Rattle.rl_forms.specs.Part.{Gives};
ghost use Rattle.rl_expression_forms.specs.Rule.{compared_of, expression_form, expression_of, operation_of, other_form, value_of};

use crate::argument::{argument, fragment};
use crate::chain::{composition, conjunction, disjunction, product, sum, unary};
use crate::collection::{conditions, list, set, splice};
use crate::literal::primary;
use crate::operation::{binary_operation, conditional, matching, name_test};
use crate::parenthesized::parenthesized;
use crate::suffix::{bounds, suffix};
use crate::visit::{strategy_form, visit_expression};
use rl_base::{Place, Shared};
use rl_forms::words::has_word;
use rl_forms::{Form, FormError};
use rl_phrase_table::rules;
use rl_syntax::Exp;
use rl_tokens::terminal;
use std::alloc::Global;

// A comparison, or `e is name`.
fn compared(alloc: Global, place: Place, parts: &[Form]) -> Result<Exp, FormError>
    ensures { Gives (compared_of place parts.now) result }
{
    if has_word(terminal::IS, parts) {
        name_test(alloc, place, parts)
    } else {
        binary_operation(alloc, place, parts)
    }
}

// An expression with an operator.
#[tactic(auto, unfolding(crate::specs::Rule::operation_of))]
fn operation(alloc: Global, rule: u32, place: Place, parts: &[Form]) -> Result<Exp, FormError>
    ensures { Gives (operation_of rule place parts.now) result }
{
    match rule {
        rules::EXPRESSION => conditional(alloc, place, parts),
        rules::IMPLICATION | rules::EQUALITY => binary_operation(alloc, place, parts),
        rules::COMPARISON => compared(alloc, place, parts),
        rules::DISJUNCTION => Ok(disjunction(alloc, place, parts)?),
        rules::CONJUNCTION => Ok(conjunction(alloc, place, parts)?),
        rules::MATCH => matching(alloc, place, parts),
        rules::SUM => sum(alloc, place, parts),
        rules::PRODUCT => product(alloc, place, parts),
        rules::COMPOSITION => Ok(composition(alloc, place, parts)?),
        rules::UNARY => unary(alloc, place, parts),
        _ => Err(FormError::Missing),
    }
}

// An expression without an operator.
#[tactic(auto, unfolding(crate::specs::Rule::value_of))]
fn value(alloc: Global, rule: u32, place: Place, parts: &[Form]) -> Result<Exp, FormError>
    ensures { Gives (value_of rule place parts.now) result }
{
    match rule {
        rules::PRIMARY => primary(alloc, place, parts),
        rules::ARGUMENT => argument(alloc, place, parts),
        rules::VISIT_EXPRESSION => visit_expression(alloc, place, parts),
        rules::PARENTHESIZED => parenthesized(alloc, place, parts),
        rules::LIST_EXPRESSION => list(alloc, place, parts),
        rules::SET_EXPRESSION => set(alloc, place, parts),
        rules::ELEMENT => splice(alloc, place, parts),
        _ => Err(FormError::Missing),
    }
}

fn expression(alloc: Global, rule: u32, place: Place, parts: &[Form]) -> Result<Exp, FormError>
    ensures { Gives (expression_of rule place parts.now) result }
{
    match operation(alloc, rule, place, parts) {
        Err(FormError::Missing) => value(alloc, rule, place, parts),
        found => found,
    }
}

// What is no expression.
#[tactic(auto, unfolding(crate::specs::Rule::other_form))]
fn other_form(alloc: Global, rule: u32, place: Place, parts: &[Form]) -> Result<Form, FormError>
    ensures { Gives (other_form rule place parts.now) result }
{
    match rule {
        rules::SUFFIX => Ok(Form::Suffix(suffix(alloc, place, parts)?)),
        rules::SUBSCRIPT => Ok(bounds(alloc, parts)?),
        rules::VISIT_STRATEGY => strategy_form(parts),
        rules::CONCRETE => fragment(alloc, place, parts),
        rules::CONDITIONS => Ok(conditions(alloc, parts)?),
        _ => Err(FormError::Missing),
    }
}

/// What a phrase of the rule says that begins at the place and has these parts: an expression, a part of one, a fragment, or
/// several conditions.
///
/// # Errors
///
/// `Missing` is for other rules, and where a part that the form needs is missing or of another kind.
#[tactic(auto, unfolding(crate::specs::Rule::expression_form))]
pub fn expression_form(
    alloc: Global,
    rule: u32,
    place: Place,
    parts: &[Form],
) -> Result<Form, FormError>
    ensures { Gives (expression_form rule place parts.now) result }
{
    match expression(alloc, rule, place, parts) {
        Ok(expression) => Ok(Form::Expression(Shared::new(alloc, expression)?)),
        Err(FormError::Missing) => other_form(alloc, rule, place, parts),
        Err(FormError::OutOfMemory) => Err(FormError::OutOfMemory),
    }
}
