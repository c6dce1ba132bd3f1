//! Patterns among the parts of a phrase.

ghost use Rattle.std.specs.Prelude.{◌≡◌, IfOk};
ghost use Rattle.rl_forms.specs.Part.{Gives};
ghost use Rattle.rl_forms.specs.Patterns.{fragment_pattern, own_element};

use crate::form::Form;
use crate::part::{FormError, Part};
use rl_base::Shared;
use rl_syntax::{Concrete, Pattern, PatternElement};
use std::alloc::{AllocError, Global};

fn fragment_pattern(
    alloc: Global,
    fragment: &Shared<Concrete>,
) -> Result<Shared<Pattern>, AllocError>
    ensures { IfOk result (λ it. it ≡ fragment_pattern fragment.now) }
{
    let place = fragment.get().place;
    let fragment = fragment.share()?;
    Shared::new(alloc, Pattern::Fragment { place, fragment })
}

impl Part for Shared<Pattern> {
    ghost use Rattle.rl_forms.specs.Patterns.{as_pattern};

    ghost of_form = { as_pattern };

    fn from_form(alloc: Global, form: &Form) -> Result<Shared<Pattern>, FormError> {
        match form {
            Form::Pattern(pattern) => Ok(pattern.share()?),
            Form::Fragment(fragment) => Ok(fragment_pattern(alloc, fragment)?),
            _ => Err(FormError::Missing),
        }
    }
}

fn own_element(form: &Form) -> Result<PatternElement, FormError>
    ensures { Gives (own_element form.now) result }
{
    match form {
        Form::PatternElement(element) => Ok(element.share()?),
        _ => Err(FormError::Missing),
    }
}

/// A pattern is one element.
impl Part for PatternElement {
    ghost use Rattle.rl_forms.specs.Patterns.{as_element};

    ghost of_form = { as_element };

    fn from_form(alloc: Global, form: &Form) -> Result<PatternElement, FormError> {
        match own_element(form) {
            Err(FormError::Missing) => Ok(PatternElement::Single(Part::from_form(alloc, form)?)),
            found => found,
        }
    }
}
