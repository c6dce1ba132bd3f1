//! Expressions, conditions and what stands behind a value, among the parts of a phrase.

ghost use Rattle.std.specs.Prelude.{◌≡◌, IfOk, [], ◌∷◌};
ghost use Rattle.rl_forms.specs.Part.{Gives};
ghost use Rattle.rl_forms.specs.Expressions.{conditions_or_none, fragment_expression, own_conditions};

use crate::form::Form;
use crate::part::{FormError, Part, optional_at};
use rl_base::{Row, Shared};
use rl_syntax::{Concrete, Exp, Strategy, Suffix};
use std::alloc::{AllocError, Global};

fn fragment_expression(
    alloc: Global,
    fragment: &Shared<Concrete>,
) -> Result<Shared<Exp>, AllocError>
    ensures { IfOk result (λ it. it ≡ fragment_expression fragment.now) }
{
    let place = fragment.get().place;
    let fragment = fragment.share()?;
    Shared::new(alloc, Exp::Fragment { place, fragment })
}

impl Part for Shared<Exp> {
    ghost use Rattle.rl_forms.specs.Expressions.{as_expression};

    ghost of_form = { as_expression };

    fn from_form(alloc: Global, form: &Form) -> Result<Shared<Exp>, FormError> {
        match form {
            Form::Expression(expression) => Ok(expression.share()?),
            Form::Fragment(fragment) => Ok(fragment_expression(alloc, fragment)?),
            _ => Err(FormError::Missing),
        }
    }
}

fn own_conditions(form: &Form) -> Result<Row<Shared<Exp>>, FormError>
    ensures { Gives (own_conditions form.now) result }
{
    match form {
        Form::Conditions(conditions) => Ok(conditions.share()?),
        _ => Err(FormError::Missing),
    }
}

fn only_condition(alloc: Global, condition: Shared<Exp>) -> Result<Row<Shared<Exp>>, AllocError>
    ensures { IfOk result (λ row. row ≡ condition ∷ []) }
{
    let mut row = Vec::new(alloc);
    row.push(condition)?;
    Row::from_vec(alloc, row)
}

/// Conditions. One expression is a list of one condition.
impl Part for Row<Shared<Exp>> {
    ghost use Rattle.rl_forms.specs.Expressions.{as_conditions};

    ghost of_form = { as_conditions };

    fn from_form(alloc: Global, form: &Form) -> Result<Row<Shared<Exp>>, FormError> {
        match own_conditions(form) {
            Err(FormError::Missing) => {
                let condition = Part::from_form(alloc, form)?;
                Ok(only_condition(alloc, condition)?)
            }
            found => found,
        }
    }
}

/// The conditions at a place among the parts, or no condition where nothing stands there.
pub fn conditions_or_none(
    alloc: Global,
    parts: &[Form],
    at: usize,
) -> Result<Row<Shared<Exp>>, AllocError>
    ensures { IfOk result (λ row. row ≡ conditions_or_none parts.now at) }
{
    match optional_at(alloc, parts, at)? {
        Some(conditions) => Ok(conditions),
        None => Row::from_vec(alloc, Vec::new(alloc)),
    }
}

impl Part for Suffix {
    ghost use Rattle.rl_forms.specs.Expressions.{as_suffix};

    ghost of_form = { as_suffix };

    fn from_form(_: Global, form: &Form) -> Result<Suffix, FormError> {
        match form {
            Form::Suffix(suffix) => Ok(suffix.share()?),
            _ => Err(FormError::Missing),
        }
    }
}

impl Part for Strategy {
    ghost use Rattle.rl_forms.specs.Expressions.{as_strategy};

    ghost of_form = { as_strategy };

    fn from_form(_: Global, form: &Form) -> Result<Strategy, FormError> {
        match form {
            Form::Strategy(strategy) => Ok(*strategy),
            _ => Err(FormError::Missing),
        }
    }
}
