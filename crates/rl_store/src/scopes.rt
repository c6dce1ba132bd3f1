//! The scopes.

ghost use Rattle.std.specs.Prelude.{◌≡◌, ℕ, ◌<◌, ◌≤◌, [], ◌∷◌, ◌++◌, length, take, IsTrue, Some, OnOk, OnErr};
ghost use Rattle.std.specs.Option.{option_copied};
ghost use Rattle.std.specs.FinMap.{empty};
ghost use Rattle.rl_store.specs.Scope.{value_at, value_of, changed_at, place_of};
ghost use Rattle.rl_store.specs.Rooms.{HasRoom, last_note_at, KeepsLastNotes, KeepsOtherNotes, SetsLastNote};
ghost use Rattle.rl_store.specs.Journal.{IsLast, NotesSince};

use crate::journal::{At, MarkAt, Note};
use crate::slots::Slots;
use rl_value::Value;
use std::alloc::{AllocError, Global};
use std::marker::Model;

/// The scopes, of which there is always a first.
#[derive(Drop)]
pub(crate) struct Scopes {
    alloc: Global,
    first: Slots,
    inner: Vec<Slots>,
}

impl Model for Scopes {
    ghost use Rattle.rl_store.specs.Rooms.{Rooms, rooms_code};

    ghost Value = { Rooms };

    ghost coded = { rooms_code };

    ghost use Rattle.std.specs.Prelude.{map, ◌∷◌};

    ghost view = { λ s. record {
      scopes = s.first.scope ∷ map (λ v. v.scope) s.inner.items;
      rooms = s.first.room ∷ map (λ v. v.room) s.inner.items;
      last_notes = s.first.last_notes ∷ map (λ v. v.last_notes) s.inner.items;
    } };
}

impl Scopes {
    /// One empty scope.
    pub(crate) fn new(alloc: Global) -> Scopes
        ensures { result.scopes ≡ empty ∷ [] }
    {
        Scopes {
            alloc,
            first: Slots::new(alloc),
            inner: Vec::new(alloc),
        }
    }

    /// How many scopes there are.
    pub(crate) fn len(&self) -> usize
        ensures value { result ≡ length self.now.scopes }
        ensures some { 1 ≤ result }
    {
        self.inner.len() + 1
    }

    /// The value of the variable in the scope with this place, if it has one.
    pub(crate) fn value(&self, place: usize, variable: usize) -> Option<&Value>
        requires { place < length self.now.scopes }
        ensures { option_copied result ≡ value_at self.now.scopes place variable }
    {
        if place == 0 {
            self.first.value(variable)
        } else {
            self.inner[place - 1].value(variable)
        }
    }

    /// The value of the variable in the innermost scope that has it; None where no scope has it.
    pub(crate) fn innermost_value(&self, variable: usize) -> Option<&Value>
        ensures { option_copied result ≡ value_of self.now.scopes variable }
    {
        let mut place = self.len();
        while place > 0 {
            place -= 1;
            let found = self.value(place, variable);
            if found.is_some() {
                return found;
            }
        }
        None
    }

    /// The place of the innermost scope that has the variable, or 0.
    pub(crate) fn place_of(&self, variable: usize) -> usize
        ensures value { result ≡ place_of self.now.scopes variable }
        ensures within { result < length self.now.scopes }
    {
        let mut place = self.len() - 1;
        while place > 0 && self.value(place, variable).is_none() {
            place -= 1;
        }
        place
    }

    /// Sets the variable of the scope with this place, after what it has is noted where the newest mark needs it. A refusal
    /// changes no value.
    pub(crate) fn write(
        &mut self,
        v: Value,
        notes: &mut Vec<Note>,
        newest: Option<MarkAt>,
        at: At,
    ) -> Result<(), AllocError>
        requires place { at.place < length self.old.scopes }
        requires last_note { IsLast notes.old.items (last_note_at self.old.last_notes at.place at.variable) at.place at.variable }
        ensures scopes { OnOk result (self.new.scopes ≡ changed_at self.old.scopes at.place at.variable (Some v)) }
        ensures room { OnOk result (HasRoom self.new.rooms at.place at.variable) }
        ensures stays { (p x : ℕ) → HasRoom self.old.rooms p x → HasRoom self.new.rooms p x }
        ensures last_note { OnOk result (IsLast notes.new.items (last_note_at self.new.last_notes at.place at.variable) at.place at.variable) }
        ensures others { KeepsOtherNotes self.old.last_notes self.new.last_notes at.place at.variable }
        ensures notes { OnOk result (NotesSince newest (at.place, at.variable) (value_at self.old.scopes at.place at.variable) notes.old.items notes.new.items) }
        ensures same { OnErr result (self.new.scopes ≡ self.old.scopes) }
        ensures same_note { OnErr result (last_note_at self.new.last_notes at.place at.variable ≡ last_note_at self.old.last_notes at.place at.variable) }
        ensures same_notes { OnErr result (notes.new.items ≡ notes.old.items) }
    {
        if at.place == 0 {
            self.first.write(v, notes, newest, at)
        } else {
            self.inner[at.place - 1].write(v, notes, newest, at)
        }
    }

    /// Sets what the variable of the scope with this place has, and its last note.
    pub(crate) fn set(
        &mut self,
        place: usize,
        variable: usize,
        value: Option<Value>,
        last_note: usize,
    )
        requires { HasRoom self.old.rooms place variable }
        ensures scopes { self.new.scopes ≡ changed_at self.old.scopes place variable value }
        ensures rooms { self.new.rooms ≡ self.old.rooms }
        ensures last_notes { SetsLastNote self.old.last_notes self.new.last_notes place variable last_note }
    {
        if place == 0 {
            self.first.set(variable, value, last_note)
        } else {
            self.inner[place - 1].set(variable, value, last_note)
        }
    }

    /// Sets the last note of the variable of the scope with this place.
    pub(crate) fn set_last_note(&mut self, place: usize, variable: usize, last_note: usize)
        requires { HasRoom self.old.rooms place variable }
        ensures scopes { self.new.scopes ≡ self.old.scopes }
        ensures rooms { self.new.rooms ≡ self.old.rooms }
        ensures last_notes { SetsLastNote self.old.last_notes self.new.last_notes place variable last_note }
    {
        if place == 0 {
            self.first.set_last_note(variable, last_note)
        } else {
            self.inner[place - 1].set_last_note(variable, last_note)
        }
    }

    /// Adds an empty innermost scope.
    pub(crate) fn open(&mut self) -> Result<(), AllocError>
        ensures ok { OnOk result (self.new.scopes ≡ self.old.scopes ++ empty ∷ []) }
        ensures err { OnErr result (self.new ≡ self.old) }
        ensures stays { (p x : ℕ) → HasRoom self.old.rooms p x → HasRoom self.new.rooms p x }
        ensures last_notes { KeepsLastNotes self.old.last_notes self.new.last_notes }
    {
        self.inner.push(Slots::new(self.alloc))?;
        Ok(())
    }

    /// Keeps as many scopes.
    pub(crate) fn truncate(&mut self, count: usize)
        requires { 1 ≤ count }
        ensures scopes { self.new.scopes ≡ take count self.old.scopes }
        ensures rooms { self.new.rooms ≡ take count self.old.rooms }
        ensures last_notes { self.new.last_notes ≡ take count self.old.last_notes }
    {
        self.inner.truncate(count - 1)
    }
}
