//! Visits.

ghost use Rattle.std.specs.Prelude.{◌≡◌, IfOk};
ghost use Rattle.rl_forms.specs.Part.{Gives};
ghost use Rattle.rl_expression_forms.specs.Visit.{strategy, strategy_of, visit_of, written_strategy};

use rl_base::{Place, Shared};
use rl_forms::words::word_at;
use rl_forms::{Form, FormError, first_in, optional_at, row_in};
use rl_syntax::{Exp, Strategy, Ty};
use rl_tokens::terminal;
use std::alloc::{AllocError, Global};

fn strategy(word: u32) -> Result<Strategy, FormError>
    ensures { Gives (strategy word) result }
{
    match word {
        terminal::INNERMOST => Ok(Strategy::Innermost),
        terminal::OUTERMOST => Ok(Strategy::Outermost),
        terminal::TOP_DOWN => Ok(Strategy::TopDown),
        terminal::TOP_DOWN_BREAK => Ok(Strategy::TopDownBreak),
        terminal::BOTTOM_UP => Ok(Strategy::BottomUp),
        terminal::BOTTOM_UP_BREAK => Ok(Strategy::BottomUpBreak),
        _ => Err(FormError::Missing),
    }
}

/// The strategy that is one word.
#[tactic(auto, unfolding(crate::specs::Visit::strategy_of))]
pub(crate) fn strategy_form(parts: &[Form]) -> Result<Form, FormError>
    ensures { Gives (strategy_of parts.now) result }
{
    Ok(Form::Strategy(strategy(word_at(parts, 0)?)?))
}

// The strategy that is written, or else bottom-up.
fn written_strategy(alloc: Global, parts: &[Form]) -> Result<Strategy, AllocError>
    ensures { IfOk result (λ it. it ≡ written_strategy parts.now) }
{
    match optional_at(alloc, parts, 0)? {
        Some(strategy) => Ok(strategy),
        None => Ok(Strategy::BottomUp),
    }
}

/// `strategy visit (e) { cases }`
#[tactic(auto, unfolding(crate::specs::Visit::visit_of))]
pub(crate) fn visit_expression(
    alloc: Global,
    place: Place,
    parts: &[Form],
) -> Result<Exp, FormError>
    ensures { Gives (visit_of place parts.now) result }
{
    let subject: Shared<Exp> = first_in(alloc, parts)?;
    let unknown = Ty::Value {
        place: subject.get().place(),
    };
    Ok(Exp::Visit {
        place,
        strategy: written_strategy(alloc, parts)?,
        subject,
        cases: row_in(alloc, parts)?,
        subject_type: Shared::new(alloc, unknown)?,
    })
}
