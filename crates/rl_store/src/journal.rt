//! What variables had before they were changed.

ghost use Rattle.std.specs.Prelude.{◌≡◌, ◌≤◌, ◌<◌, ◌++◌, length, take, drop, filter, All, IfOk, OnOk, OnErr};
ghost use Rattle.std.specs.Option.{option_copied, option_to_list};
ghost use Rattle.rl_store.specs.Store.{laid_entries};
ghost use Rattle.rl_store.specs.Journal.{floor_of, is_of, is_noted, is_taken, entries_of, HasRoomIn, IsLast, AreLast, IsLinked, Notes, NotesSince, passed_down};

use crate::scopes::Scopes;
use rl_value::Value;
use std::alloc::AllocError;

/// What a variable of a scope had before it was changed.
#[derive(Drop)]
pub(crate) struct Note {
    /// The place of the scope.
    pub(crate) place: usize,
    pub(crate) variable: usize,
    pub(crate) before: Option<Value>,
    /// One more than the place of the variable's last note before this one.
    pub(crate) earlier: usize,
}

/// A variable of a scope.
#[derive(Clone, Copy)]
pub(crate) struct At {
    /// The place of the scope.
    pub(crate) place: usize,
    pub(crate) variable: usize,
}

/// How much there was at a mark.
#[derive(Clone, Copy)]
pub(crate) struct MarkAt {
    pub(crate) scopes: usize,
    pub(crate) notes: usize,
}

/// How many scopes stay open: those that stood at the newest mark, or the first.
pub(crate) fn floor_of(newest: Option<MarkAt>) -> usize
    ensures { result ≡ floor_of newest }
{
    match newest {
        Some(newest) => newest.scopes,
        None => 1,
    }
}

// Whether the note is of the variable of the scope with this place.
fn is_of(note: Option<&Note>, place: usize, variable: usize) -> bool
    ensures { result ≡ is_of (option_copied note.entry) place variable }
{
    match note {
        None => false,
        Some(note) => note.place == place && note.variable == variable,
    }
}

// Whether the last note of the variable, one more than whose place is given, is among those from `from` on.
fn is_noted(notes: &[Note], from: usize, last_note: usize, place: usize, variable: usize) -> bool
    ensures { result ≡ is_noted notes.now from last_note place variable }
{
    last_note > from && is_of(notes.get(last_note - 1), place, variable)
}

// Whether the older mark takes the note from a newer one.
fn is_taken(front: &[Note], older: MarkAt, note: &Note) -> bool
    ensures { result ≡ is_taken front.now older note.now }
{
    note.place < older.scopes
        && !is_noted(front, older.notes, note.earlier, note.place, note.variable)
}

// The same value, or none.
fn share(value: Option<&Value>) -> Result<Option<Value>, AllocError>
    ensures { IfOk result (λ v. v ≡ option_copied value.entry) }
{
    match value {
        None => Ok(None),
        Some(value) => Ok(Some(value.share()?)),
    }
}

// Notes what the variable has, unless the newest mark needs no note of it. Answers one more than the place of its last note.
fn note_under(
    notes: &mut Vec<Note>,
    newest: MarkAt,
    at: At,
    earlier: usize,
    has: Option<&Value>,
) -> Result<usize, AllocError>
    requires { IsLast notes.old.items earlier at.place at.variable }
    ensures last_note { IfOk result (λ last_note. IsLast notes.new.items last_note at.place at.variable) }
    ensures ok { OnOk result (Notes newest (at.place, at.variable) (option_copied has.entry) notes.old.items notes.new.items) }
    ensures err { OnErr result (notes.new.items ≡ notes.old.items) }
{
    let At { place, variable } = at;
    if place >= newest.scopes || is_noted(notes, newest.notes, earlier, place, variable) {
        return Ok(earlier);
    }
    let before = share(has)?;
    notes.push(Note {
        place,
        variable,
        before,
        earlier,
    })?;
    Ok(notes.len())
}

/// Notes what the variable has, where a mark is live that needs a note of it. Answers one more than the place of its last note.
pub(crate) fn note_before(
    notes: &mut Vec<Note>,
    newest: Option<MarkAt>,
    at: At,
    earlier: usize,
    has: Option<&Value>,
) -> Result<usize, AllocError>
    requires { IsLast notes.old.items earlier at.place at.variable }
    ensures last_note { IfOk result (λ last_note. IsLast notes.new.items last_note at.place at.variable) }
    ensures ok { OnOk result (NotesSince newest (at.place, at.variable) (option_copied has.entry) notes.old.items notes.new.items) }
    ensures err { OnErr result (notes.new.items ≡ notes.old.items) }
{
    match newest {
        Some(newest) => note_under(notes, newest, at, earlier, has),
        None => Ok(earlier),
    }
}

/// Gives the variables of the notes from `from` on back what they had, the last note first, and removes these notes.
pub(crate) fn restore(scopes: &mut Scopes, notes: &mut Vec<Note>, from: usize)
    requires room { All (HasRoomIn scopes.old.rooms) notes.old.items }
    requires last_notes { AreLast notes.old.items scopes.old.last_notes }
    requires linked { All (IsLinked (take from notes.old.items)) (drop from notes.old.items) }
    ensures scopes { scopes.new.scopes ≡ laid_entries (entries_of (drop from notes.old.items)) scopes.old.scopes }
    ensures rooms { scopes.new.rooms ≡ scopes.old.rooms }
    ensures notes { notes.new.items ≡ take from notes.old.items }
    ensures last_notes { AreLast notes.new.items scopes.new.last_notes }
{
    while notes.len() > from {
        if let Some(note) = notes.pop() {
            scopes.set(note.place, note.variable, note.before, note.earlier);
        }
    }
}

// Makes the notes before `from` the last of their variables.
fn unlink(scopes: &mut Scopes, notes: &[Note], from: usize)
    requires room { All (HasRoomIn scopes.old.rooms) notes.now }
    requires last_notes { AreLast notes.now scopes.old.last_notes }
    requires linked { All (IsLinked (take from notes.now)) (drop from notes.now) }
    ensures scopes { scopes.new.scopes ≡ scopes.old.scopes }
    ensures rooms { scopes.new.rooms ≡ scopes.old.rooms }
    ensures last_notes { AreLast (take from notes.now) scopes.new.last_notes }
{
    for i in from..notes.len() {
        let note = &notes[i];
        scopes.set_last_note(note.place, note.variable, note.earlier);
    }
}

// Makes each of the notes from `from` on the last of its variable.
fn link(scopes: &mut Scopes, notes: &[Note], from: usize)
    requires room { All (HasRoomIn scopes.old.rooms) notes.now }
    requires last_notes { AreLast (take from notes.now) scopes.old.last_notes }
    ensures scopes { scopes.new.scopes ≡ scopes.old.scopes }
    ensures rooms { scopes.new.rooms ≡ scopes.old.rooms }
    ensures last_notes { AreLast notes.now scopes.new.last_notes }
{
    for i in from..notes.len() {
        let note = &notes[i];
        scopes.set_last_note(note.place, note.variable, i + 1);
    }
}

// Moves the notes that the older mark takes to the front of `back`. Answers how many these are.
fn settle(front: &[Note], back: &mut [Note], older: MarkAt) -> usize
    ensures kept { take result back.new ≡ filter (is_taken front.now older) back.old }
    ensures within { result ≤ length back.old }
{
    let mut kept = 0;
    for i in 0..back.len() {
        if is_taken(front, older, &back[i]) {
            back.swap(kept, i);
            kept += 1;
        }
    }
    kept
}

// Removes the notes from `from` on that the older mark does not take.
fn keep_taken(notes: &mut Vec<Note>, older: MarkAt, from: usize)
    requires { from ≤ length notes.old.items }
    ensures { notes.new.items ≡ take from notes.old.items ++ filter (is_taken (take from notes.old.items) older) (drop from notes.old.items) }
{
    let (front, back) = notes.split_at_mut(from);
    let kept = settle(front, back, older);
    notes.truncate(from + kept);
}

// Gives the notes from `from` on to the older mark, and removes those that it does not take.
fn give_down(scopes: &mut Scopes, notes: &mut Vec<Note>, older: MarkAt, from: usize)
    requires within { from ≤ length notes.old.items }
    requires room { All (HasRoomIn scopes.old.rooms) notes.old.items }
    requires last_notes { AreLast notes.old.items scopes.old.last_notes }
    requires linked { All (IsLinked (take from notes.old.items)) (drop from notes.old.items) }
    ensures notes { notes.new.items ≡ take from notes.old.items ++ filter (is_taken (take from notes.old.items) older) (drop from notes.old.items) }
    ensures scopes { scopes.new.scopes ≡ scopes.old.scopes }
    ensures rooms { scopes.new.rooms ≡ scopes.old.rooms }
    ensures last_notes { AreLast notes.new.items scopes.new.last_notes }
{
    unlink(scopes, notes, from);
    keep_taken(notes, older, from);
    link(scopes, notes, from);
}

/// Gives the notes from `from` on to the older mark, and removes those that it does not take, or all where there is none.
pub(crate) fn pass_down(
    scopes: &mut Scopes,
    notes: &mut Vec<Note>,
    older: Option<MarkAt>,
    from: usize,
)
    requires within { from ≤ length notes.old.items }
    requires room { All (HasRoomIn scopes.old.rooms) notes.old.items }
    requires last_notes { AreLast notes.old.items scopes.old.last_notes }
    requires linked { All (IsLinked (take from notes.old.items)) (drop from notes.old.items) }
    ensures notes { notes.new.items ≡ passed_down older from notes.old.items }
    ensures scopes { scopes.new.scopes ≡ scopes.old.scopes }
    ensures rooms { scopes.new.rooms ≡ scopes.old.rooms }
    ensures last_notes { AreLast notes.new.items scopes.new.last_notes }
{
    match older {
        Some(older) => give_down(scopes, notes, older, from),
        None => notes.clear(),
    }
}

/// Adds the mark that was the newest, if there is one, to the older marks.
pub(crate) fn add_older(older: &mut Vec<MarkAt>, newest: Option<MarkAt>) -> Result<(), AllocError>
    ensures ok { OnOk result (older.new.items ≡ older.old.items ++ option_to_list newest) }
    ensures err { OnErr result (older.new.items ≡ older.old.items) }
{
    if let Some(newest) = newest {
        older.push(newest)?;
    }
    Ok(())
}
