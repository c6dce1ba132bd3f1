//! Statements, cases and handlers among the parts of a phrase.

ghost use Rattle.std.specs.Prelude.{◌≡◌, IfOk};
ghost use Rattle.rl_forms.specs.Statements.{expression_statement};

use crate::form::Form;
use crate::part::{FormError, Part};
use rl_base::Shared;
use rl_syntax::{Case, Exp, Handler, Stat};
use std::alloc::{AllocError, Global};

fn expression_statement(alloc: Global, expression: &Shared<Exp>) -> Result<Shared<Stat>, AllocError>
    ensures { IfOk result (λ it. it ≡ expression_statement expression.now) }
{
    let place = expression.get().place();
    let value = expression.share()?;
    Shared::new(alloc, Stat::Expression { place, value })
}

/// A visit is a statement without its semicolon.
impl Part for Shared<Stat> {
    ghost use Rattle.rl_forms.specs.Statements.{as_statement};

    ghost of_form = { as_statement };

    fn from_form(alloc: Global, form: &Form) -> Result<Shared<Stat>, FormError> {
        match form {
            Form::Statement(statement) => Ok(statement.share()?),
            Form::Expression(expression) => Ok(expression_statement(alloc, expression)?),
            _ => Err(FormError::Missing),
        }
    }
}

impl Part for Shared<Case> {
    ghost use Rattle.rl_forms.specs.Statements.{as_case};

    ghost of_form = { as_case };

    fn from_form(_: Global, form: &Form) -> Result<Shared<Case>, FormError> {
        match form {
            Form::Case(case) => Ok(case.share()?),
            _ => Err(FormError::Missing),
        }
    }
}

impl Part for Shared<Handler> {
    ghost use Rattle.rl_forms.specs.Statements.{as_handler};

    ghost of_form = { as_handler };

    fn from_form(_: Global, form: &Form) -> Result<Shared<Handler>, FormError> {
        match form {
            Form::Handler(handler) => Ok(handler.share()?),
            _ => Err(FormError::Missing),
        }
    }
}
