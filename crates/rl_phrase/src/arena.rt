//! The trees that were put together so far, in one list that only grows.

ghost use Rattle.std.specs.Prelude.{◌≡◌, suc, ◌≤◌, [], ◌∷◌, length, IfOk};
ghost use Rattle.rl_phrase.specs.Arena.{IsOlder, Reads, parts_in};

use std::alloc::{AllocError, Global};
use std::marker::Model;

// A tree: a token, or the node of a row, from a token to another, with the list of its parts.
#[derive(Clone, Copy)]
pub enum Item {
    Token(u32),
    Node {
        rule: u32,
        from: u32,
        to: u32,
        parts: u32,
    },
}

// A tree behind the ones that came before it. A list is named by the number of its last cell, counted from 1,
// and is empty at 0. So a list can go on in more than one way, and a tree can stand in more than one list.
#[derive(Clone, Copy)]
pub struct Cell {
    pub before: u32,
    pub item: Item,
}

// Cells, of which contracts see the list from the newest on.
#[derive(Drop)]
pub struct Arena {
    cells: Vec<Cell>,
}

impl Model for Arena {
    ghost use Rattle.std.specs.Prelude.{List, reverse};
    ghost use Rattle.rl_phrase.specs.declared.arena.Cell.{Cell};
    ghost use Rattle.rl_phrase.specs.Arena.{AreOlder};

    ghost Value = { List Cell };

    ghost view = { λ a. reverse a.cells.items };

    ghost invariant = { λ a. AreOlder (reverse a.cells.items) };
}

impl Arena {
    pub fn new(alloc: Global) -> Self
        ensures { result ≡ [] }
    {
        Arena {
            cells: Vec::new(alloc),
        }
    }

    // Adds a cell, and gives its number.
    pub fn add(&mut self, cell: Cell) -> Result<u32, AllocError>
        requires { IsOlder cell (length self.old) }
        ensures { IfOk result (λ number. (number ≡ suc (length self.old)) × (self.new ≡ cell ∷ self.old)) }
    {
        let Ok(before) = u32::try_from(self.cells.len()) else {
            return Err(AllocError);
        };
        if before == u32::MAX {
            return Err(AllocError);
        }
        self.cells.push(cell)?;
        Ok(before + 1)
    }

    // The last cell of a list, if it has one.
    pub fn last(&self, list: u32) -> Option<Cell>
        requires { list ≤ length self.now }
        ensures { Reads self.now list result }
    {
        if list == 0 {
            return None;
        }
        Some(self.cells[list as usize - 1])
    }

    // How many trees a list has.
    pub fn count(&self, list: u32) -> Result<usize, AllocError>
        requires { list ≤ length self.now }
        ensures { IfOk result (λ n. n ≡ length (parts_in self.now list)) }
    {
        let mut n = 0usize;
        let mut rest = list;
        'cells: while let Some(cell) = self.last(rest) {
            if n == usize::MAX {
                return Err(AllocError);
            }
            n += 1;
            rest = cell.before;
        }
        Ok(n)
    }
}
