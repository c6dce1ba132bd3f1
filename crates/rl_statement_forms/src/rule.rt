//! What a phrase of statements says, by its rule.

ghost use Rattle.rl_forms.specs.Part.{Gives};
ghost use Rattle.rl_statement_forms.specs.Rule.{other_form, right_side_of, statement_form, statement_of};

use crate::case::{case, handler};
use crate::control::{block, choice, repetition, solve, switch};
use crate::simple::{expression_statement, simple};
use crate::trying::{attempt, finally};
use rl_base::{Place, Shared};
use rl_forms::{Form, FormError, part_at};
use rl_phrase_table::rules;
use rl_syntax::Stat;
use std::alloc::Global;

#[tactic(auto, unfolding(crate::specs::Rule::statement_of))]
fn statement(alloc: Global, rule: u32, place: Place, parts: &[Form]) -> Result<Stat, FormError>
    ensures { Gives (statement_of rule place parts.now) result }
{
    match rule {
        rules::STATEMENT => expression_statement(alloc, place, parts),
        rules::BLOCK => Ok(block(alloc, place, parts)?),
        rules::IF => choice(alloc, place, parts),
        rules::SWITCH => switch(alloc, place, parts),
        rules::LOOP => repetition(alloc, place, parts),
        rules::SOLVE => solve(alloc, place, parts),
        rules::TRY => attempt(alloc, place, parts),
        rules::SIMPLE_STATEMENT => simple(alloc, place, parts),
        _ => Err(FormError::Missing),
    }
}

// `e;` on a right side
#[tactic(auto, unfolding(crate::specs::Rule::right_side_of))]
fn right_side(alloc: Global, parts: &[Form]) -> Result<Form, FormError>
    ensures { Gives (right_side_of parts.now) result }
{
    Ok(Form::Expression(part_at(alloc, parts, 0)?))
}

// What is no statement.
#[tactic(auto, unfolding(crate::specs::Rule::other_form))]
fn other_form(alloc: Global, rule: u32, place: Place, parts: &[Form]) -> Result<Form, FormError>
    ensures { Gives (other_form rule place parts.now) result }
{
    match rule {
        rules::CASE => Ok(Form::Case(Shared::new(alloc, case(alloc, place, parts)?)?)),
        rules::CATCH => Ok(Form::Handler(Shared::new(alloc, handler(alloc, place, parts)?)?)),
        rules::FINALLY => finally(alloc, parts),
        rules::RIGHT_SIDE => right_side(alloc, parts),
        _ => Err(FormError::Missing),
    }
}

/// What a phrase of the rule says that begins at the place and has these parts: a statement, a case, a handler, what stands
/// behind `finally`, or a right side.
///
/// # Errors
///
/// `Missing` is for other rules, and where a part that the form needs is missing or of another kind.
#[tactic(auto, unfolding(crate::specs::Rule::statement_form))]
pub fn statement_form(
    alloc: Global,
    rule: u32,
    place: Place,
    parts: &[Form],
) -> Result<Form, FormError>
    ensures { Gives (statement_form rule place parts.now) result }
{
    match statement(alloc, rule, place, parts) {
        Ok(statement) => Ok(Form::Statement(Shared::new(alloc, statement)?)),
        Err(FormError::Missing) => other_form(alloc, rule, place, parts),
        Err(FormError::OutOfMemory) => Err(FormError::OutOfMemory),
    }
}
