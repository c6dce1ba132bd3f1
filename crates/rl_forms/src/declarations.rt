//! Types, fields, constructors and declarations among the parts of a phrase.

ghost use Rattle.std.specs.Prelude.{◌≡◌, None, IfOk};
ghost use Rattle.rl_forms.specs.Declarations.{field};

use crate::form::Form;
use crate::part::{FormError, Part};
use rl_base::Shared;
use rl_syntax::{Decl, Field, Ty, Variant};
use std::alloc::{AllocError, Global};

impl Part for Shared<Ty> {
    ghost use Rattle.rl_forms.specs.Declarations.{as_type};

    ghost of_form = { as_type };

    fn from_form(_: Global, form: &Form) -> Result<Shared<Ty>, FormError> {
        match form {
            Form::Type(ty) => Ok(ty.share()?),
            _ => Err(FormError::Missing),
        }
    }
}

fn plain_field(ty: &Shared<Ty>) -> Result<Field, AllocError>
    ensures { IfOk result (λ it. it ≡ field ty.now None) }
{
    Ok(Field {
        ty: ty.share()?,
        name: None,
    })
}

/// A type is a field without a name.
impl Part for Field {
    ghost use Rattle.rl_forms.specs.Declarations.{as_field};

    ghost of_form = { as_field };

    fn from_form(_: Global, form: &Form) -> Result<Field, FormError> {
        match form {
            Form::Type(ty) => Ok(plain_field(ty)?),
            Form::Field(field) => Ok(field.share()?),
            _ => Err(FormError::Missing),
        }
    }
}

impl Part for Variant {
    ghost use Rattle.rl_forms.specs.Declarations.{as_variant};

    ghost of_form = { as_variant };

    fn from_form(_: Global, form: &Form) -> Result<Variant, FormError> {
        match form {
            Form::Variant(variant) => Ok(variant.share()?),
            _ => Err(FormError::Missing),
        }
    }
}

impl Part for Decl {
    ghost use Rattle.rl_forms.specs.Declarations.{as_declaration};

    ghost of_form = { as_declaration };

    fn from_form(_: Global, form: &Form) -> Result<Decl, FormError> {
        match form {
            Form::Declaration(declaration) => Ok(declaration.share()?),
            _ => Err(FormError::Missing),
        }
    }
}
