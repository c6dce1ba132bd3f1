//! What named rows gave.

ghost use Rattle.std.specs.Prelude.{◌≡◌, ◌⊎◌, suc, ◌+◌, ◌<◌, ◌^◌, [], ◌∷◌, ◌++◌, map, length, IfSome, IfOk, OnOk};
ghost use Rattle.std.specs.List.{IsAmong};
ghost use Rattle.rl_phrase.specs.Memory.{IsOneMore};

use crate::arena::Item;
use std::alloc::{AllocError, Global};
use std::marker::Model;

// For how many entries, and as many tokens, room is kept where all are forgotten.
const KEPT: usize = 1024;

// What a row gives: how far it came in vain, and where it succeeds its tree and the next token.
#[derive(Clone, Copy)]
pub enum Given {
    Failure { far: u32 },
    Success { item: Item, next: u32, far: u32 },
}

// What a row gives at a token.
#[derive(Clone, Copy)]
pub struct Entry {
    pub row: u32,
    pub at: u32,
    pub given: Given,
}

// An entry, and the number of the link that was added before it at the same token. Numbers count from 1, and 0 is none.
#[derive(Clone, Copy)]
struct Link {
    entry: Entry,
    before: u32,
}

// The link of a number.
fn numbered(links: &[Link], number: u32) -> Option<Link>
    ensures { IfSome result (IsAmong links.now) }
{
    let index = (number as usize).checked_sub(1)?;
    links.get(index).copied()
}

// The entry of a row at a token, of the chain that ends with the number `last`.
fn find(links: &[Link], last: u32, row: u32, at: u32) -> Option<Entry>
    ensures { IfSome result (λ entry. (entry.row ≡ row) × (entry.at ≡ at) × IsAmong (map (λ l. l.entry) links.now) entry) }
{
    let mut number = last;
    'chain: while let Some(link) = numbered(links, number) {
        let entry = link.entry;
        if entry.row == row && entry.at == at {
            return Some(entry);
        }
        if number <= link.before {
            return None;
        }
        number = link.before;
    }
    None
}

// Adds columns without entries, up to the one at `column`.
fn widen(columns: &mut Vec<u32>, column: usize) -> Result<(), AllocError>
    ensures { OnOk result (column < length columns.new.items) }
{
    while columns.len() <= column {
        columns.push(0)?;
    }
    Ok(())
}

// The columns, behind new ones without entries.
fn put_before(alloc: Global, columns: &[u32], more: usize) -> Result<Vec<u32>, AllocError>
    ensures { IfOk result (λ all. length all.items ≡ more + length columns.now) }
{
    let mut all = vec![in alloc; 0; more]?;
    all.extend_from_slice(columns)?;
    Ok(all)
}

// Entries, of which contracts see the list. Each token from `base` on has a column, the number of its last link.
#[derive(Drop)]
pub struct Memory {
    alloc: Global,
    links: Vec<Link>,
    base: u32,
    columns: Vec<u32>,
}

impl Model for Memory {
    ghost use Rattle.std.specs.Prelude.{List, map};
    ghost use Rattle.rl_phrase.specs.declared.memory.Entry.{Entry};

    ghost Value = { List Entry };

    ghost view = { λ m. map (λ l. l.entry) m.links.items };
}

impl Memory {
    pub fn new(alloc: Global) -> Self
        ensures { result ≡ [] }
    {
        Memory {
            alloc,
            links: Vec::new(alloc),
            base: 0,
            columns: Vec::new(alloc),
        }
    }

    // Forgets all. Little room is kept.
    pub fn forget(&mut self)
        ensures { self.new ≡ [] }
    {
        if self.links.capacity() > KEPT || self.columns.capacity() > KEPT {
            self.links = Vec::new(self.alloc);
            self.columns = Vec::new(self.alloc);
        } else {
            self.links.clear();
            self.columns.clear();
        }
    }

    // What is remembered of a row at a token.
    pub fn recall(&self, row: u32, at: u32) -> Option<Entry>
        ensures { IfSome result (λ entry. (entry.row ≡ row) × (entry.at ≡ at) × IsAmong self.now entry) }
    {
        let column = at.checked_sub(self.base)?;
        let last = *self.columns.get(column as usize)?;
        find(&self.links, last, row, at)
    }

    // Adds columns down to a token before the first, and as many again as there were, so that few entries do it. Gives the
    // token's column.
    fn column_before(&mut self, at: u32) -> Result<u32, AllocError>
        ensures { OnOk result (self.new ≡ self.old) }
    {
        let spare = self.columns.len().min(at as usize) as u32;
        let base = at - spare;
        let more = self.base.saturating_sub(base);
        self.columns = put_before(self.alloc, &self.columns, more as usize)?;
        self.base = base;
        Ok(spare)
    }

    // The column of a token. Where an entry more has no number, all is forgotten, and the column is the first.
    fn column(&mut self, at: u32) -> Result<u32, AllocError>
        ensures kept { OnOk result ((self.new ≡ self.old) ⊎ (self.new ≡ [])) }
        ensures room { OnOk result (suc (length self.new) < 2 ^ 32) }
    {
        if self.links.is_empty() || self.links.len() >= u32::MAX as usize {
            self.forget();
            self.base = at;
            return Ok(0);
        }
        match at.checked_sub(self.base) {
            Some(column) => Ok(column),
            None => self.column_before(at),
        }
    }

    // Adds an entry to a column.
    fn add(&mut self, column: usize, entry: Entry) -> Result<(), AllocError>
        requires { suc (length self.old) < 2 ^ 32 }
        ensures { OnOk result (self.new ≡ self.old ++ entry ∷ []) }
    {
        widen(&mut self.columns, column)?;
        let before = self.columns[column];
        self.links.push(Link { entry, before })?;
        self.columns[column] = self.links.len() as u32;
        Ok(())
    }

    // Remembers what a row gives at a token.
    pub fn remember(&mut self, entry: Entry) -> Result<(), AllocError>
        ensures { OnOk result (IsOneMore entry self.old self.new) }
    {
        let column = self.column(entry.at)?;
        self.add(column as usize, entry)
    }
}
