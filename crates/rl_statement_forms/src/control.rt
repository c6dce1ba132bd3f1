//! Statements that choose or repeat others.

ghost use Rattle.std.specs.Prelude.{◌≡◌, IfOk};
ghost use Rattle.rl_forms.specs.Part.{Gives};
ghost use Rattle.rl_statement_forms.specs.Control.{block_of, do_of, for_of, if_of, loop_of, solve_of, switch_of, while_of};

use rl_base::Place;
use rl_forms::words::word_at;
use rl_forms::{Form, FormError, optional_at, part_at, row_in};
use rl_syntax::Stat;
use rl_tokens::terminal;
use std::alloc::{AllocError, Global};

/// `{ statements }`
pub(crate) fn block(alloc: Global, place: Place, parts: &[Form]) -> Result<Stat, AllocError>
    ensures { IfOk result (λ it. it ≡ block_of place parts.now) }
{
    let body = row_in(alloc, parts)?;
    Ok(Stat::Block { place, body })
}

/// `if (conditions) statement else statement`
#[tactic(auto, unfolding(crate::specs::Control::if_of))]
pub(crate) fn choice(alloc: Global, place: Place, parts: &[Form]) -> Result<Stat, FormError>
    ensures { Gives (if_of place parts.now) result }
{
    Ok(Stat::If {
        place,
        conditions: part_at(alloc, parts, 2)?,
        then: part_at(alloc, parts, 4)?,
        otherwise: optional_at(alloc, parts, 6)?,
    })
}

/// `switch (e) { cases }`
#[tactic(auto, unfolding(crate::specs::Control::switch_of))]
pub(crate) fn switch(alloc: Global, place: Place, parts: &[Form]) -> Result<Stat, FormError>
    ensures { Gives (switch_of place parts.now) result }
{
    Ok(Stat::Switch {
        place,
        subject: part_at(alloc, parts, 2)?,
        cases: row_in(alloc, parts)?,
    })
}

// `for (conditions) statement`
#[tactic(auto, unfolding(crate::specs::Control::for_of))]
fn for_loop(alloc: Global, place: Place, parts: &[Form]) -> Result<Stat, FormError>
    ensures { Gives (for_of place parts.now) result }
{
    Ok(Stat::For {
        place,
        conditions: part_at(alloc, parts, 2)?,
        body: part_at(alloc, parts, 4)?,
    })
}

// `while (conditions) statement`
#[tactic(auto, unfolding(crate::specs::Control::while_of))]
fn while_loop(alloc: Global, place: Place, parts: &[Form]) -> Result<Stat, FormError>
    ensures { Gives (while_of place parts.now) result }
{
    Ok(Stat::While {
        place,
        conditions: part_at(alloc, parts, 2)?,
        body: part_at(alloc, parts, 4)?,
    })
}

// `do statement while (conditions);`
#[tactic(auto, unfolding(crate::specs::Control::do_of))]
fn do_loop(alloc: Global, place: Place, parts: &[Form]) -> Result<Stat, FormError>
    ensures { Gives (do_of place parts.now) result }
{
    Ok(Stat::Do {
        place,
        body: part_at(alloc, parts, 1)?,
        conditions: part_at(alloc, parts, 4)?,
    })
}

/// A loop, by its first word.
#[tactic(auto, unfolding(crate::specs::Control::loop_of))]
pub(crate) fn repetition(alloc: Global, place: Place, parts: &[Form]) -> Result<Stat, FormError>
    ensures { Gives (loop_of place parts.now) result }
{
    match word_at(parts, 0)? {
        terminal::FOR => for_loop(alloc, place, parts),
        terminal::WHILE => while_loop(alloc, place, parts),
        terminal::DO => do_loop(alloc, place, parts),
        _ => Err(FormError::Missing),
    }
}

/// `solve (x, y) statement`
#[tactic(auto, unfolding(crate::specs::Control::solve_of))]
pub(crate) fn solve(alloc: Global, place: Place, parts: &[Form]) -> Result<Stat, FormError>
    ensures { Gives (solve_of place parts.now) result }
{
    Ok(Stat::Solve {
        place,
        variables: row_in(alloc, parts)?,
        body: part_at(alloc, parts, parts.len().saturating_sub(1))?,
    })
}
