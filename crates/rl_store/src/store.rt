//! Stores.

ghost use Rattle.std.specs.Prelude.{◌≡◌, ◌<◌, ◌≤◌, ◌↔◌, [], ◌∷◌, length, IsTrue, OnOk, OnErr};
ghost use Rattle.std.specs.Option.{option_copied};
ghost use Rattle.std.specs.FinMap.{empty};
ghost use Rattle.rl_store.specs.Scope.{value_at, value_of};
ghost use Rattle.rl_store.specs.Store.{setting, declared, written, opened, closed, marked, rolled_back, released, HasMark, IsClosable, IsLaid};

use crate::journal::{At, MarkAt, Note, add_older, floor_of, pass_down, restore};
use crate::scopes::Scopes;
use rl_value::Value;
use std::alloc::{AllocError, Global};
use std::marker::Model;

/// The variables of a running program, by scopes, with marks to which the program can go back.
///
/// There is one store; beside it stand notes of what variables had before they were changed under a mark.
#[derive(Drop)]
pub struct Store {
    scopes: Scopes,
    notes: Vec<Note>,
    newest: Option<MarkAt>,
    /// The marks that are older than the newest, which come last.
    older: Vec<MarkAt>,
}

impl Model for Store {
    ghost use Rattle.rl_store.specs.Store.{PlainStore, store_code};

    ghost Value = { PlainStore };

    ghost coded = { store_code };

    ghost use Rattle.rl_store.specs.View.{store_of, IsSound};

    ghost view = { store_of };

    ghost invariant = { IsSound };
}

impl Store {
    /// One empty scope, and no mark.
    pub fn new(alloc: Global) -> Store
        ensures { result ≡ record { scopes = empty ∷ []; marks = [] } }
    {
        Store {
            scopes: Scopes::new(alloc),
            notes: Vec::new(alloc),
            newest: None,
            older: Vec::new(alloc),
        }
    }

    /// The value in the innermost scope that has the variable; None where no scope has it.
    pub fn read(&self, variable: usize) -> Option<&Value>
        ensures { option_copied result ≡ value_of self.now.scopes variable }
    {
        self.scopes.innermost_value(variable)
    }

    /// How many scopes there are.
    pub fn scope_count(&self) -> usize
        ensures count { result ≡ length self.now.scopes }
        ensures some { 1 ≤ result }
    {
        self.scopes.len()
    }

    /// The value of the variable in the scope with this place, counted from the first, which has the place 0. None where that
    /// scope does not have it.
    pub fn value(&self, place: usize, variable: usize) -> Option<&Value>
        requires { place < length self.now.scopes }
        ensures { option_copied result ≡ value_at self.now.scopes place variable }
    {
        self.scopes.value(place, variable)
    }

    /// Sets the variable in the scope with this place, over a value that stands there. A refusal changes nothing.
    pub fn set(&mut self, place: usize, variable: usize, v: Value) -> Result<(), AllocError>
        requires { place < length self.old.scopes }
        ensures ok { OnOk result (self.new ≡ setting self.old place variable v) }
        ensures err { OnErr result (self.new ≡ self.old) }
    {
        let at = At { place, variable };
        self.scopes.write(v, &mut self.notes, self.newest, at)
    }

    /// Sets the variable in the innermost scope, over a value that stands there. A refusal changes nothing.
    pub fn declare(&mut self, variable: usize, v: Value) -> Result<(), AllocError>
        ensures ok { OnOk result (self.new ≡ declared self.old variable v) }
        ensures err { OnErr result (self.new ≡ self.old) }
    {
        let place = self.scopes.len() - 1;
        self.set(place, variable, v)
    }

    /// Sets the variable in the innermost scope that has it, and where no scope has it, in the first. A refusal changes nothing.
    pub fn write(&mut self, variable: usize, v: Value) -> Result<(), AllocError>
        ensures ok { OnOk result (self.new ≡ written self.old variable v) }
        ensures err { OnErr result (self.new ≡ self.old) }
    {
        let place = self.scopes.place_of(variable);
        self.set(place, variable, v)
    }

    /// Adds an empty innermost scope. A refusal changes nothing.
    pub fn open_scope(&mut self) -> Result<(), AllocError>
        ensures ok { OnOk result (self.new ≡ opened self.old) }
        ensures err { OnErr result (self.new ≡ self.old) }
    {
        self.scopes.open()
    }

    /// Whether a scope was opened that is still there, after the newest mark where one is live.
    pub fn is_closable(&self) -> bool
        ensures { IsTrue result ↔ IsClosable self.now }
    {
        floor_of(self.newest) < self.scopes.len()
    }

    /// Whether a mark is live.
    pub fn has_mark(&self) -> bool
        ensures { IsTrue result ↔ HasMark self.now }
    {
        self.newest.is_some()
    }

    /// Drops the innermost scope.
    pub fn close_scope(&mut self)
        requires { IsClosable self.old }
        ensures { self.new ≡ closed self.old }
    {
        let count = self.scopes.len() - 1;
        self.scopes.truncate(count);
    }

    /// Makes a new live mark, the newest. A refusal changes nothing.
    pub fn mark(&mut self) -> Result<(), AllocError>
        ensures ok { OnOk result (self.new ≡ marked self.old) }
        ensures err { OnErr result (self.new ≡ self.old) }
    {
        add_older(&mut self.older, self.newest)?;
        self.newest = Some(MarkAt {
            scopes: self.scopes.len(),
            notes: self.notes.len(),
        });
        Ok(())
    }

    /// Goes back to the newest live mark, which ends: the scopes that were opened since are dropped, and what is noted is
    /// laid over the rest.
    pub fn rollback(&mut self)
        requires { HasMark self.old }
        ensures state { self.new ≡ rolled_back self.old.marks self.old }
        ensures laid { IsLaid self.old.marks self.old.scopes self.new.scopes }
    {
        if let Some(mark) = self.newest {
            self.newest = self.older.pop();
            self.scopes.truncate(mark.scopes);
            restore(&mut self.scopes, &mut self.notes, mark.notes);
        }
    }

    /// Ends the newest live mark and keeps the store. The next mark takes its notes.
    pub fn release(&mut self)
        requires { HasMark self.old }
        ensures { self.new ≡ released self.old }
    {
        if let Some(mark) = self.newest {
            self.newest = self.older.pop();
            pass_down(&mut self.scopes, &mut self.notes, self.newest, mark.notes);
        }
    }
}
