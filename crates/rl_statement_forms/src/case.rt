//! Cases of switches and visits, and handlers of exceptions.

ghost use Rattle.rl_forms.specs.Part.{Gives};
ghost use Rattle.rl_statement_forms.specs.Case.{case_of, handler_of, pattern_case, replacement};

use rl_base::{Place, Shared};
use rl_forms::words::has_word;
use rl_forms::{Form, FormError, conditions_or_none, optional_at, part_at, row_in};
use rl_syntax::{Case, Handler, Pattern};
use rl_tokens::terminal;
use std::alloc::Global;

// `case p => e when conditions`
#[tactic(auto, unfolding(crate::specs::Case::replacement))]
fn replacement(
    alloc: Global,
    place: Place,
    pattern: Shared<Pattern>,
    parts: &[Form],
) -> Result<Case, FormError>
    ensures { Gives (replacement place pattern parts.now) result }
{
    Ok(Case::Replacement {
        place,
        pattern,
        value: part_at(alloc, parts, 3)?,
        conditions: conditions_or_none(alloc, parts, 5)?,
    })
}

// What the pattern leads to.
fn pattern_case(
    alloc: Global,
    place: Place,
    pattern: Shared<Pattern>,
    parts: &[Form],
) -> Result<Case, FormError>
    ensures { Gives (pattern_case place pattern parts.now) result }
{
    if has_word(terminal::ARROW, parts) {
        replacement(alloc, place, pattern, parts)
    } else {
        Ok(Case::Statements {
            place,
            pattern,
            body: row_in(alloc, parts)?,
        })
    }
}

/// A case.
#[tactic(auto, unfolding(crate::specs::Case::case_of))]
pub(crate) fn case(alloc: Global, place: Place, parts: &[Form]) -> Result<Case, FormError>
    ensures { Gives (case_of place parts.now) result }
{
    match optional_at(alloc, parts, 1)? {
        Some(pattern) => pattern_case(alloc, place, pattern, parts),
        None => Ok(Case::Default {
            place,
            body: row_in(alloc, parts)?,
        }),
    }
}

/// A handler.
#[tactic(auto, unfolding(crate::specs::Case::handler_of))]
pub(crate) fn handler(alloc: Global, place: Place, parts: &[Form]) -> Result<Handler, FormError>
    ensures { Gives (handler_of place parts.now) result }
{
    match optional_at(alloc, parts, 1)? {
        Some(pattern) => Ok(Handler::Matching {
            place,
            pattern,
            body: part_at(alloc, parts, 3)?,
        }),
        None => Ok(Handler::Any {
            place,
            body: part_at(alloc, parts, 2)?,
        }),
    }
}
