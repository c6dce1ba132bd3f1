//! Declarations of variables, and assignments.

ghost use Rattle.std.specs.Prelude.{◌≡◌, IfOk};
ghost use Rattle.rl_forms.specs.Part.{Gives};
ghost use Rattle.rl_statement_forms.specs.Assignment.{assignment, assignment_of, declaration_of, last_assignment, path_in, step, step_by, tuple_assignment_of};

use crate::right_side::last_right_side;
use rl_base::{Place, Row};
use rl_forms::words::word_at;
use rl_forms::{Form, FormError, part_at, row_in};
use rl_syntax::{Assignment, Stat, Suffix};
use rl_tokens::terminal;
use std::alloc::{AllocError, Global};

/// `T x = e;`
#[tactic(auto, unfolding(crate::specs::Assignment::declaration_of))]
pub(crate) fn declaration(alloc: Global, place: Place, parts: &[Form]) -> Result<Stat, FormError>
    ensures { Gives (declaration_of place parts.now) result }
{
    Ok(Stat::Declaration {
        place,
        ty: part_at(alloc, parts, 0)?,
        name: part_at(alloc, parts, 1)?,
        value: last_right_side(alloc, parts)?,
    })
}

/// `<x, y> = e;`
#[tactic(auto, unfolding(crate::specs::Assignment::tuple_assignment_of))]
pub(crate) fn tuple_assignment(
    alloc: Global,
    place: Place,
    parts: &[Form],
) -> Result<Stat, FormError>
    ensures { Gives (tuple_assignment_of place parts.now) result }
{
    Ok(Stat::TupleAssignment {
        place,
        names: row_in(alloc, parts)?,
        value: last_right_side(alloc, parts)?,
    })
}

// The step of a path that begins with the word.
fn step_by(alloc: Global, place: Place, word: u32, behind: &[Form]) -> Result<Suffix, FormError>
    ensures { Gives (step_by place word behind.now) result }
{
    match word {
        terminal::OPEN_BRACKET => Ok(Suffix::Subscript {
            place,
            index: part_at(alloc, behind, 0)?,
        }),
        terminal::DOT => Ok(Suffix::Field {
            place,
            name: part_at(alloc, behind, 0)?,
        }),
        _ => Err(FormError::Missing),
    }
}

// The step of a path that begins with the part.
fn step(alloc: Global, part: &Form, behind: &[Form]) -> Result<Suffix, FormError>
    ensures { Gives (step part.now behind.now) result }
{
    match part {
        Form::Word(place, word) => step_by(alloc, *place, *word, behind),
        _ => Err(FormError::Missing),
    }
}

// The subscripts and fields in text order.
fn path(alloc: Global, parts: &[Form]) -> Result<Row<Suffix>, AllocError>
    ensures { IfOk result (λ row. row ≡ path_in parts.now) }
{
    let mut found = Vec::new(alloc);
    let mut rest = parts;
    'parts: while let Some((part, behind)) = rest.split_first() {
        match step(alloc, part, behind) {
            Ok(step) => found.push(step)?,
            Err(FormError::Missing) => {}
            Err(FormError::OutOfMemory) => return Err(AllocError),
        }
        rest = behind;
    }
    Row::from_vec(alloc, found)
}

fn assignment(word: u32) -> Result<Assignment, FormError>
    ensures { Gives (assignment word) result }
{
    match word {
        terminal::EQUALS => Ok(Assignment::Set),
        terminal::PLUS_EQUALS => Ok(Assignment::Add),
        terminal::MINUS_EQUALS => Ok(Assignment::Subtract),
        terminal::STAR_EQUALS => Ok(Assignment::Multiply),
        terminal::SLASH_EQUALS => Ok(Assignment::Divide),
        terminal::AMPERSAND_EQUALS => Ok(Assignment::Intersect),
        _ => Err(FormError::Missing),
    }
}

// The sign of assignment, which stands last but one.
#[tactic(auto, unfolding(crate::specs::Assignment::last_assignment))]
fn last_assignment(parts: &[Form]) -> Result<Assignment, FormError>
    ensures { Gives (last_assignment parts.now) result }
{
    assignment(word_at(parts, parts.len().saturating_sub(2))?)
}

/// `x[i].f = e;`
#[tactic(auto, unfolding(crate::specs::Assignment::assignment_of))]
pub(crate) fn assign(alloc: Global, place: Place, parts: &[Form]) -> Result<Stat, FormError>
    ensures { Gives (assignment_of place parts.now) result }
{
    Ok(Stat::Assign {
        place,
        target: part_at(alloc, parts, 0)?,
        path: path(alloc, parts)?,
        assignment: last_assignment(parts)?,
        value: last_right_side(alloc, parts)?,
    })
}
