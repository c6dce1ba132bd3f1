//! The variables of one scope.

ghost use Rattle.std.specs.Prelude.{◌≡◌, ℕ, ◌==◌, [], false, IsTrue, Some, OnOk, OnErr, if◌then◌else◌};
ghost use Rattle.std.specs.Option.{option_copied};
ghost use Rattle.std.specs.FinMap.{get, empty};
ghost use Rattle.rl_store.specs.Scope.{changed};
ghost use Rattle.rl_store.specs.Rooms.{has_room, last_note_in};
ghost use Rattle.rl_store.specs.Journal.{IsLast, NotesSince};

use crate::journal::{At, MarkAt, Note, note_before};
use rl_value::Value;
use std::alloc::{AllocError, Global};
use std::collections::BTreeMap;
use std::marker::Model;

// The room of one variable.
#[derive(Drop)]
struct Slot {
    /// None where the variable has no value.
    value: Option<Value>,
    /// One more than the place of the variable's last note in the journal. It may be out of date.
    last_note: usize,
}

/// The variables of one scope.
#[derive(Drop)]
pub(crate) struct Slots {
    slots: BTreeMap<usize, Slot>,
}

impl Model for Slots {
    ghost use Rattle.rl_store.specs.Rooms.{Variables, variables_code};

    ghost Value = { Variables };

    ghost coded = { variables_code };

    ghost use Rattle.rl_store.specs.Slots.{values_of, rooms_of, last_notes_of};

    ghost view = { λ s. record { scope = values_of s.slots.entries; room = rooms_of s.slots.entries; last_notes = last_notes_of s.slots.entries } };
}

impl Slot {
    // Sets the value, after what it was is noted where a mark needs it. A refusal changes nothing.
    fn write(
        &mut self,
        v: Value,
        notes: &mut Vec<Note>,
        newest: Option<MarkAt>,
        at: At,
    ) -> Result<(), AllocError>
        requires { IsLast notes.old.items self.old.last_note at.place at.variable }
        ensures value { OnOk result (self.new.value ≡ Some v) }
        ensures last_note { OnOk result (IsLast notes.new.items self.new.last_note at.place at.variable) }
        ensures notes { OnOk result (NotesSince newest (at.place, at.variable) self.old.value notes.old.items notes.new.items) }
        ensures same { OnErr result (self.new ≡ self.old) }
        ensures same_notes { OnErr result (notes.new.items ≡ notes.old.items) }
    {
        self.last_note = note_before(notes, newest, at, self.last_note, self.value.as_ref())?;
        self.value = Some(v);
        Ok(())
    }
}

impl Slots {
    pub(crate) fn new(alloc: Global) -> Slots
        ensures scope { result.scope ≡ empty }
        ensures last_notes { result.last_notes ≡ [] }
    {
        Slots {
            slots: BTreeMap::new(alloc),
        }
    }

    /// The value of the variable, if it has one.
    pub(crate) fn value(&self, variable: usize) -> Option<&Value>
        ensures { option_copied result ≡ get self.now.scope variable }
    {
        match self.slots.get(&variable) {
            Some(slot) => slot.value.as_ref(),
            None => None,
        }
    }

    /// Sets the variable, after what it has is noted where the newest mark needs it. A refusal changes no value.
    pub(crate) fn write(
        &mut self,
        v: Value,
        notes: &mut Vec<Note>,
        newest: Option<MarkAt>,
        at: At,
    ) -> Result<(), AllocError>
        requires { IsLast notes.old.items (last_note_in self.old.last_notes at.variable) at.place at.variable }
        ensures scope { OnOk result (self.new.scope ≡ changed self.old.scope at.variable (Some v)) }
        ensures room { OnOk result (IsTrue (has_room self.new.room at.variable)) }
        ensures stays { (q : ℕ) → IsTrue (has_room self.old.room q) → IsTrue (has_room self.new.room q) }
        ensures last_note { OnOk result (IsLast notes.new.items (last_note_in self.new.last_notes at.variable) at.place at.variable) }
        ensures others { (q : ℕ) → (at.variable == q) ≡ false → last_note_in self.new.last_notes q ≡ last_note_in self.old.last_notes q }
        ensures notes { OnOk result (NotesSince newest (at.place, at.variable) (get self.old.scope at.variable) notes.old.items notes.new.items) }
        ensures same { OnErr result (self.new.scope ≡ self.old.scope) }
        ensures same_note { OnErr result (last_note_in self.new.last_notes at.variable ≡ last_note_in self.old.last_notes at.variable) }
        ensures same_notes { OnErr result (notes.new.items ≡ notes.old.items) }
    {
        match self.slots.get_mut(&at.variable) {
            Some(slot) => slot.write(v, notes, newest, at),
            None => {
                self.make_room(at.variable)?;
                self.write_there(v, notes, newest, at)
            }
        }
    }

    // The same, where the variable has room.
    fn write_there(
        &mut self,
        v: Value,
        notes: &mut Vec<Note>,
        newest: Option<MarkAt>,
        at: At,
    ) -> Result<(), AllocError>
        requires room { IsTrue (has_room self.old.room at.variable) }
        requires last_note { IsLast notes.old.items (last_note_in self.old.last_notes at.variable) at.place at.variable }
        ensures scope { OnOk result (self.new.scope ≡ changed self.old.scope at.variable (Some v)) }
        ensures room { self.new.room ≡ self.old.room }
        ensures last_note { OnOk result (IsLast notes.new.items (last_note_in self.new.last_notes at.variable) at.place at.variable) }
        ensures others { (q : ℕ) → (at.variable == q) ≡ false → last_note_in self.new.last_notes q ≡ last_note_in self.old.last_notes q }
        ensures notes { OnOk result (NotesSince newest (at.place, at.variable) (get self.old.scope at.variable) notes.old.items notes.new.items) }
        ensures same { OnErr result (self.new.scope ≡ self.old.scope) }
        ensures same_note { OnErr result (last_note_in self.new.last_notes at.variable ≡ last_note_in self.old.last_notes at.variable) }
        ensures same_notes { OnErr result (notes.new.items ≡ notes.old.items) }
    {
        match self.slots.get_mut(&at.variable) {
            Some(slot) => slot.write(v, notes, newest, at),
            // There is room.
            None => unreachable!(),
        }
    }

    // Makes room for a value of the variable.
    fn make_room(&mut self, variable: usize) -> Result<(), AllocError>
        requires { has_room self.old.room variable ≡ false }
        ensures scope { self.new.scope ≡ self.old.scope }
        ensures room { OnOk result (IsTrue (has_room self.new.room variable)) }
        ensures stays { (q : ℕ) → IsTrue (has_room self.old.room q) → IsTrue (has_room self.new.room q) }
        ensures last_notes { (q : ℕ) → last_note_in self.new.last_notes q ≡ last_note_in self.old.last_notes q }
    {
        let slot = Slot {
            value: None,
            last_note: 0,
        };
        drop(self.slots.insert(variable, slot)?);
        Ok(())
    }

    /// Sets what the variable has, and its last note.
    pub(crate) fn set(&mut self, variable: usize, value: Option<Value>, last_note: usize)
        requires { IsTrue (has_room self.old.room variable) }
        ensures scope { self.new.scope ≡ changed self.old.scope variable value }
        ensures room { self.new.room ≡ self.old.room }
        ensures last_notes { (q : ℕ) → last_note_in self.new.last_notes q ≡ (if variable == q then last_note else last_note_in self.old.last_notes q) }
    {
        match self.slots.insert(variable, Slot { value, last_note }) {
            Ok(before) => drop(before),
            // There is room.
            Err(_) => unreachable!(),
        }
    }

    /// Sets the variable's last note.
    pub(crate) fn set_last_note(&mut self, variable: usize, last_note: usize)
        requires { IsTrue (has_room self.old.room variable) }
        ensures scope { self.new.scope ≡ self.old.scope }
        ensures room { self.new.room ≡ self.old.room }
        ensures last_notes { (q : ℕ) → last_note_in self.new.last_notes q ≡ (if variable == q then last_note else last_note_in self.old.last_notes q) }
    {
        match self.slots.get_mut(&variable) {
            Some(slot) => slot.last_note = last_note,
            // There is room.
            None => unreachable!(),
        }
    }
}
