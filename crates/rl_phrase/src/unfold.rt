//! From the arena to steps.

ghost use Rattle.std.specs.Prelude.{◌≡◌, ◌≤◌, [], ◌∷◌, ◌++◌, length, IfOk, OnOk};
ghost use Rattle.rl_phrase.specs.Arena.{parts_in, IsWithin};
ghost use Rattle.rl_phrase.specs.Machine.{turned};
ghost use Rattle.rl_phrase.specs.Steps.{steps_of};
ghost use Rattle.rl_phrase.specs.Unfold.{step_in, lists_before, IsUnfolded};

use crate::arena::{Arena, Cell, Item};
use crate::stack::Stack;
use crate::steps::Step;
use std::alloc::{AllocError, Global};

// The step of a cell, and the lists that come before it.
fn unfold_cell(
    arena: &Arena,
    cell: Cell,
    steps: &mut Vec<Step>,
    lists: &mut Stack<u32>,
) -> Result<(), AllocError>
    requires { IsWithin (length arena.now) cell.item }
    ensures steps { OnOk result (steps.new.items ≡ steps.old.items ++ step_in arena.now cell.item ∷ []) }
    ensures lists { OnOk result (lists.new ≡ lists_before cell.before cell.item lists.old) }
{
    lists.push(cell.before)?;
    match cell.item {
        Item::Token(token) => steps.push(Step::Leaf(token))?,
        Item::Node {
            rule,
            from,
            to,
            parts,
        } => {
            let count = arena.count(parts)?;
            steps.push(Step::Node {
                rule,
                from,
                to,
                count,
            })?;
            lists.push(parts)?;
        }
    }
    Ok(())
}

// The last step of a list, and the lists that come before it.
fn unfold_list(
    arena: &Arena,
    list: u32,
    steps: &mut Vec<Step>,
    lists: &mut Stack<u32>,
) -> Result<(), AllocError>
    requires { list ≤ length arena.now }
    ensures { OnOk result (IsUnfolded arena.now list steps.old.items lists.old steps.new.items lists.new) }
{
    match arena.last(list) {
        Some(cell) => unfold_cell(arena, cell, steps, lists),
        None => Ok(()),
    }
}

// The steps of the trees of a list.
pub fn unfold(alloc: Global, arena: &Arena, list: u32) -> Result<Vec<Step>, AllocError>
    requires { list ≤ length arena.now }
    ensures { IfOk result (λ steps. steps.items ≡ steps_of (turned (parts_in arena.now list))) }
{
    let mut steps = Vec::new(alloc);
    let mut lists = Stack::new(alloc);
    lists.push(list)?;
    'lists: while let Some(next) = lists.pop() {
        unfold_list(arena, next, &mut steps, &mut lists)?;
    }
    steps.reverse();
    Ok(steps)
}
