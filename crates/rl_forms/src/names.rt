//! Names and texts among the parts of a phrase.

ghost use Rattle.std.specs.Prelude.{◌≡◌, IfOk};
ghost use Rattle.rl_forms.specs.Names.{variable_of};

use crate::form::Form;
use crate::part::{FormError, Part};
use rl_base::Name;
use rl_syntax::{Identifier, PatternVariable};
use std::alloc::{AllocError, Global};

impl Part for Identifier {
    ghost use Rattle.rl_forms.specs.Names.{as_name};

    ghost of_form = { as_name };

    fn from_form(_: Global, form: &Form) -> Result<Identifier, FormError> {
        match form {
            Form::Name(name) => Ok(name.share()?),
            _ => Err(FormError::Missing),
        }
    }
}

fn variable(name: &Identifier) -> Result<PatternVariable, AllocError>
    ensures { IfOk result (λ it. it ≡ variable_of name.now) }
{
    Ok(PatternVariable {
        place: name.place,
        name: name.name.share()?,
        number: 0,
        is_test: false,
    })
}

/// The variable of a name.
impl Part for PatternVariable {
    ghost use Rattle.rl_forms.specs.Names.{as_variable};

    ghost of_form = { as_variable };

    fn from_form(_: Global, form: &Form) -> Result<PatternVariable, FormError> {
        match form {
            Form::Name(name) => Ok(variable(name)?),
            _ => Err(FormError::Missing),
        }
    }
}

/// A text.
impl Part for Name {
    ghost use Rattle.rl_forms.specs.Names.{as_text};

    ghost of_form = { as_text };

    fn from_form(_: Global, form: &Form) -> Result<Name, FormError> {
        match form {
            Form::Text(text) => Ok(text.share()?),
            _ => Err(FormError::Missing),
        }
    }
}
