//! What a phrase of syntax definitions says, by its rule.

ghost use Rattle.rl_forms.specs.Part.{Gives};
ghost use Rattle.rl_production_forms.specs.Rule.{grammar_form, part_of};

use crate::atom::{atom, class, near, repetition};
use crate::definition::definition;
use crate::production::{alternative, associativity, level, production};
use crate::symbol::symbol;
use rl_base::{Place, Shared};
use rl_forms::{Form, FormError, GrammarForm};
use rl_phrase_table::rules;
use std::alloc::Global;

// What a part of a definition says.
#[tactic(auto, unfolding(crate::specs::Rule::part_of))]
fn part(alloc: Global, rule: u32, place: Place, parts: &[Form]) -> Result<GrammarForm, FormError>
    ensures { Gives (part_of rule place parts.now) result }
{
    match rule {
        rules::LEVEL => Ok(GrammarForm::Level(level(alloc, parts)?)),
        rules::ALTERNATIVE => Ok(GrammarForm::Alternative(alternative(alloc, parts)?)),
        rules::ASSOCIATIVITY => Ok(GrammarForm::Associativity(associativity(parts)?)),
        rules::PRODUCTION => Ok(GrammarForm::Production(production(alloc, parts)?)),
        rules::SYMBOL => Ok(GrammarForm::Symbol(symbol(alloc, parts)?)),
        rules::ADJOINING => Ok(GrammarForm::Near(near(alloc, parts)?)),
        rules::REPETITION => Ok(GrammarForm::Repetition(repetition(alloc, parts)?)),
        rules::ATOM => Ok(GrammarForm::Atom(atom(parts)?)),
        rules::CHARACTERS => Ok(GrammarForm::Class(class(place, parts)?)),
        _ => Err(FormError::Missing),
    }
}

/// What a phrase of the rule says that begins at the place and has these parts: a syntax definition, or a part of one. Missing
/// is for other rules, and where a part that the form needs is not there.
#[tactic(auto, unfolding(crate::specs::Rule::grammar_form))]
pub fn grammar_form(
    alloc: Global,
    rule: u32,
    place: Place,
    parts: &[Form],
) -> Result<Form, FormError>
    ensures { Gives (grammar_form rule place parts.now) result }
{
    if rule == rules::SYNTAX_DEFINITION {
        Ok(Form::Declaration(definition(alloc, place, parts)?))
    } else {
        let part = part(alloc, rule, place, parts)?;
        Ok(Form::Grammar(Shared::new(alloc, part)?))
    }
}
