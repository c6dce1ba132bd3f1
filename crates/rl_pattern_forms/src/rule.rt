//! What a phrase of patterns says, by its rule.

ghost use Rattle.rl_forms.specs.Part.{Gives};
ghost use Rattle.rl_pattern_forms.specs.Rule.{pattern_form};

use crate::elements::rest;
use crate::named::named;
use crate::plain::plain;
use rl_base::{Place, Shared};
use rl_forms::{Form, FormError};
use rl_phrase_table::rules;
use std::alloc::Global;

/// What a phrase of the rule says that begins at the place and has these parts: a pattern, or what begins with `*` in one.
/// Missing is for other rules, and where a part that the form needs is not there.
#[tactic(auto, unfolding(crate::specs::Rule::pattern_form))]
pub fn pattern_form(
    alloc: Global,
    rule: u32,
    place: Place,
    parts: &[Form],
) -> Result<Form, FormError>
    ensures { Gives (pattern_form rule place parts.now) result }
{
    match rule {
        rules::PATTERN => {
            let pattern = named(alloc, place, parts)?;
            Ok(Form::Pattern(Shared::new(alloc, pattern)?))
        }
        rules::PLAIN_PATTERN => {
            let pattern = plain(alloc, place, parts)?;
            Ok(Form::Pattern(Shared::new(alloc, pattern)?))
        }
        rules::PATTERN_ELEMENT => Ok(Form::PatternElement(rest(alloc, place, parts)?)),
        _ => Err(FormError::Missing),
    }
}
