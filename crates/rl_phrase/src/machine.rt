//! The machine: one loop over a stack of frames.

ghost use Rattle.std.specs.Prelude.{◌≡◌, ◌⊎◌, ℕ, ◌≤◌, ◌↔◌, List, [], ◌∷◌, true, length, slice_get, OnOk, IfOk};
ghost use Rattle.std.specs.List.{All};
ghost use Rattle.rl_phrase.specs.declared.arena.Cell.{Cell};
ghost use Rattle.rl_phrase.specs.LeftRecursion.{HasNoLeftRecursion};
ghost use Rattle.rl_phrase.specs.Firsts.{AreFirsts};
ghost use Rattle.rl_phrase.specs.Phr.{node_of};
ghost use Rattle.rl_phrase.specs.Machine.{Pending, Calling, turned, called_terminal, called_form, succeeded};
ghost use Rattle.rl_phrase.specs.Arena.{parts_in, tree_in, IsOlder, IsWithin, node_alone};
ghost use Rattle.rl_phrase.specs.State.{frame_in, frames_in, state_of, after_turn, built_in, with_some, FrameWithin, FramesWithin, BuiltWithin, TurnWithin, IsRight, Extends, Leads};
ghost use Rattle.rl_phrase.specs.Stands.{Stands, IsPrepared, HasTurned, RemembersSuccess, RemembersFailure};

use crate::arena::{Arena, Cell, Item};
use crate::firsts::{First, cannot_begin};
use crate::lookahead::{is_optional, pass_over};
use crate::memory::{Entry, Given, Memory};
use crate::stack::Stack;
use crate::table::{Form, Rule};
use crate::terminals::is_terminal;
use crate::turn::{
    Built, Frame, Mark, Rest, Task, Turn, begin, fail, push, recalled, straight_on, to,
};
use rl_tokens::Tokens;
use std::alloc::{AllocError, Global};

// The tree of a cell, where it is a node that stands alone, or else the other.
fn lone_or(cell: Cell, other: Item) -> Item
    ensures { result ≡ node_alone cell.before cell.item other }
{
    match cell.item {
        Item::Node { .. } if cell.before == 0 => cell.item,
        _ => other,
    }
}

// The tree of a named row from its parts: their node, unless they are one node.
fn name(arena: &Arena, parts: u32, row: u32, from: u32, at: u32) -> Item
    requires { parts ≤ length arena.now }
    ensures means { tree_in arena.now result ≡ node_of row from at (turned (parts_in arena.now parts)) }
    ensures within { IsWithin (length arena.now) result }
{
    let node = Item::Node {
        rule: row,
        from,
        to: at,
        parts,
    };
    match arena.last(parts) {
        Some(cell) => lone_or(cell, node),
        None => node,
    }
}

// Over how few frames a turn of a repetition has what is before it forgotten.
const SHALLOW: usize = 8;

// Near the stack's bottom, where a turn of a repetition has ended, hardly anything before it will be asked again: all is forgotten.
fn forget_before(memory: &mut Memory, frame: Frame, depth: usize)
    ensures { (memory.new ≡ memory.old) ⊎ (memory.new ≡ []) }
{
    if let Frame::Turns { .. } = frame
        && depth < SHALLOW
    {
        memory.forget();
    }
}

// Where a named row has succeeded, that is remembered.
fn remember_success(
    memory: &mut Memory,
    arena: &Arena,
    frame: Frame,
    parts: u32,
    at: u32,
    far: u32,
) -> Result<(), AllocError>
    requires { parts ≤ length arena.now }
    ensures { OnOk result (RemembersSuccess arena.now frame parts at far memory.old memory.new) }
{
    if let Frame::Naming { row, mark, .. } = frame {
        let item = name(arena, parts, row, mark.at, at);
        memory.remember(Entry {
            row,
            at: mark.at,
            given: Given::Success {
                item,
                next: at,
                far,
            },
        })?;
    }
    Ok(())
}

// Where a named row has failed, that is remembered.
fn remember_failure(memory: &mut Memory, frame: Frame, far: u32) -> Result<(), AllocError>
    ensures { OnOk result (RemembersFailure frame far memory.old memory.new) }
{
    if let Frame::Naming { row, mark, .. } = frame {
        memory.remember(Entry {
            row,
            at: mark.at,
            given: Given::Failure { far },
        })?;
    }
    Ok(())
}

fn is_same_item(a: Item, b: Item) -> bool
    ensures { result ≡ true ↔ a ≡ b }
{
    match (a, b) {
        (Item::Token(a), Item::Token(b)) => a == b,
        (
            Item::Node {
                rule,
                from,
                to,
                parts,
            },
            Item::Node {
                rule: other_rule,
                from: other_from,
                to: other_to,
                parts: other_parts,
            },
        ) => rule == other_rule && from == other_from && to == other_to && parts == other_parts,
        _ => false,
    }
}

fn is_same(a: Cell, b: Cell) -> bool
    ensures { result ≡ true ↔ a ≡ b }
{
    a.before == b.before && is_same_item(a.item, b.item)
}

// The list of the cell: the one at hand where it ends with the same cell, as where rows that are one node call each other.
fn list_of(arena: &mut Arena, cell: Cell, parts: u32) -> Result<u32, AllocError>
    requires cell { IsOlder cell (length arena.old) }
    requires parts { parts ≤ length arena.old }
    ensures means { IfOk result (λ list. parts_in arena.new list ≡ tree_in arena.old cell.item ∷ parts_in arena.old cell.before) }
    ensures within { IfOk result (λ list. list ≤ length arena.new) }
    ensures extends { OnOk result (Extends arena.old arena.new) }
{
    if let Some(last) = arena.last(parts)
        && is_same(last, cell)
    {
        return Ok(parts);
    }
    arena.add(cell)
}

// The list, which is made where it is not there yet.
fn build(arena: &mut Arena, built: Built, parts: u32) -> Result<u32, AllocError>
    requires built { BuiltWithin (length arena.old) built }
    requires parts { parts ≤ length arena.old }
    ensures means { IfOk result (λ list. parts_in arena.new list ≡ built_in arena.old built) }
    ensures within { IfOk result (λ list. list ≤ length arena.new) }
    ensures extends { OnOk result (Extends arena.old arena.new) }
{
    match built {
        Built::Same(list) => Ok(list),
        Built::More(before, item) => list_of(arena, Cell { before, item }, parts),
    }
}

fn push_some(frames: &mut Stack<Frame>, frame: Option<Frame>) -> Result<(), AllocError>
    ensures { OnOk result (frames.new ≡ with_some frame frames.old) }
{
    match frame {
        Some(frame) => frames.push(frame),
        None => Ok(()),
    }
}

// The state of the machine: the task and the frames, the list of trees of the row at hand, and the furthest token at
// which a terminal was tried in vain since the innermost named row began.
#[derive(Drop)]
pub struct Machine {
    pub task: Task,
    pub frames: Stack<Frame>,
    pub parts: u32,
    pub far: u32,
    pub arena: Arena,
    pub memory: Memory,
}

impl Machine {
    // A terminal is read where the token is it.
    fn read(&self, tokens: &Tokens, kind: u32, at: u32) -> Turn
        ensures means { (frames : List Pending) → after_turn self.now.arena result frames ≡ called_terminal kind at (slice_get tokens.now at) frames (parts_in self.now.arena self.now.parts) self.now.far }
        ensures within { (n : ℕ) → self.now.parts ≤ n → TurnWithin n result }
    {
        if at < tokens.len() && is_terminal(tokens, at, kind) {
            return to(
                Task::Succeed(at + 1),
                Built::More(self.parts, Item::Token(at)),
                self.far,
            );
        }
        to(Task::Fail, Built::Same(self.parts), self.far.max(at))
    }

    // What a row begins with.
    fn start(&self, tokens: &Tokens, rule: Rule, row: u32, at: u32) -> Turn
        ensures means { (frames : List Pending) → after_turn self.now.arena result frames ≡ called_form tokens.now row at rule.form rule.first rule.count frames (parts_in self.now.arena self.now.parts) self.now.far }
        ensures within { (n : ℕ) → self.now.parts ≤ n → TurnWithin n result }
    {
        let first = rule.first as u64;
        let rest = Rest {
            next: first,
            end: first + rule.count as u64,
        };
        let mark = Mark {
            at,
            parts: self.parts,
        };
        let built = Built::Same(self.parts);
        let far = self.far;
        match rule.form {
            Form::Term(kind) => self.read(tokens, kind, at),
            Form::Link => to(Task::Call { row: first, at }, built, far),
            Form::Named => begin(
                rest,
                at,
                Frame::Naming { row, mark, far },
                Built::Same(0),
                0,
            ),
            Form::Seq => push(Task::Succeed(at), Frame::Parts(rest), built, far),
            Form::Choice => push(Task::Fail, Frame::Choices(rest, mark), built, far),
            Form::Star => begin(
                rest,
                at,
                Frame::Turns {
                    rest,
                    mark,
                    must: false,
                },
                built,
                far,
            ),
            Form::Plus => begin(
                rest,
                at,
                Frame::Turns {
                    rest,
                    mark,
                    must: true,
                },
                built,
                far,
            ),
            Form::Opt => begin(rest, at, Frame::Optional(mark), built, far),
            Form::Not => begin(rest, at, Frame::Negated(mark), built, far),
        }
    }

    // What a call comes to: at once to a failure where the row cannot begin with the token, or to nothing where it is optional
    // and its first part cannot, or to what is remembered of it, or else to its beginning.
    fn call(
        &self,
        tokens: &Tokens,
        rules: &[Rule],
        firsts: &[First],
        row: u64,
        at: u32,
    ) -> Result<Turn, AllocError>
        requires no_left_recursion { HasNoLeftRecursion rules.now }
        requires firsts { AreFirsts rules.now firsts.now }
        requires list { self.now.parts ≤ length self.now.arena }
        requires memory { All (IsRight tokens.now rules.now self.now.arena) self.now.memory }
        ensures means { IfOk result (λ turn. (frames : List Pending) → Leads tokens.now rules.now (Calling row at frames (parts_in self.now.arena self.now.parts) self.now.far) (after_turn self.now.arena turn frames)) }
        ensures within { IfOk result (λ turn. TurnWithin (length self.now.arena) turn) }
    {
        let Ok(number) = u32::try_from(row) else {
            return Err(AllocError);
        };
        let Some(rule) = rules.get(row as usize) else {
            return Ok(to(Task::Fail, Built::Same(0), self.far));
        };
        if cannot_begin(firsts, tokens, row, at) {
            return Ok(to(Task::Fail, Built::Same(0), self.far.max(at)));
        }
        if is_optional(*rule) && cannot_begin(firsts, tokens, rule.first as u64, at) {
            return Ok(to(Task::Succeed(at), Built::Same(self.parts), self.far.max(at)));
        }
        if let Form::Named = rule.form
            && let Some(entry) = self.memory.recall(number, at)
        {
            return Ok(recalled(entry.given, self.parts, self.far));
        }
        Ok(self.start(tokens, *rule, number, at))
    }

    // After a success the frame says what to do.
    fn succeed(&self, frame: Frame, at: u32) -> Turn
        requires list { self.now.parts ≤ length self.now.arena }
        requires frame { FrameWithin (length self.now.arena) frame }
        ensures means { (frames : List Pending) → after_turn self.now.arena result frames ≡ succeeded at (frame_in self.now.arena frame) frames (parts_in self.now.arena self.now.parts) self.now.far }
        ensures within { TurnWithin (length self.now.arena) result }
    {
        let built = Built::Same(self.parts);
        let far = self.far;
        match frame {
            Frame::Parts(Rest { next, end }) if next < end => {
                let rest = Rest {
                    next: next + 1,
                    end,
                };
                push(Task::Call { row: next, at }, Frame::Parts(rest), built, far)
            }
            Frame::Naming {
                row,
                mark,
                far: before,
            } => {
                let item = name(&self.arena, self.parts, row, mark.at, at);
                to(
                    Task::Succeed(at),
                    Built::More(mark.parts, item),
                    before.max(far),
                )
            }
            Frame::Turns { rest, mark, .. } if at != mark.at => {
                let mark = Mark {
                    at,
                    parts: self.parts,
                };
                begin(
                    rest,
                    at,
                    Frame::Turns {
                        rest,
                        mark,
                        must: false,
                    },
                    built,
                    far,
                )
            }
            Frame::Negated(_) => to(Task::Fail, built, far),
            Frame::Parts(_) | Frame::Choices(..) | Frame::Turns { .. } | Frame::Optional(_) => {
                to(Task::Succeed(at), built, far)
            }
        }
    }

    // The turn that is next, if there is one, without its frame and with what is remembered of it.
    fn next(
        &mut self,
        tokens: &Tokens,
        rules: &[Rule],
        firsts: &[First],
    ) -> Result<Option<Turn>, AllocError>
        requires no_left_recursion { HasNoLeftRecursion rules.now }
        requires firsts { AreFirsts rules.now firsts.now }
        requires stands { Stands tokens.now rules.now self.old }
        ensures { IfOk result (IsPrepared tokens.now rules.now self.old self.new) }
    {
        match self.task {
            Task::Call { row, at } => {
                let turn = self.call(tokens, rules, firsts, row, at)?;
                Ok(Some(turn))
            }
            Task::Succeed(at) => {
                let Some(frame) = self.frames.pop() else {
                    return Ok(None);
                };
                forget_before(&mut self.memory, frame, self.frames.len());
                remember_success(
                    &mut self.memory,
                    &self.arena,
                    frame,
                    self.parts,
                    at,
                    self.far,
                )?;
                Ok(Some(self.succeed(frame, at)))
            }
            Task::Fail => {
                let Some(frame) = self.frames.pop() else {
                    return Ok(None);
                };
                remember_failure(&mut self.memory, frame, self.far)?;
                let (frame, far) = pass_over(tokens, firsts, frame, self.far);
                Ok(Some(fail(frame, far)))
            }
        }
    }

    // Takes the turn.
    fn take(&mut self, turn: Turn) -> Result<(), AllocError>
        requires list { self.old.parts ≤ length self.old.arena }
        requires frames { FramesWithin (length self.old.arena) self.old.frames }
        requires turn { TurnWithin (length self.old.arena) turn }
        ensures state { OnOk result (state_of self.new ≡ after_turn self.old.arena turn (frames_in self.old.arena self.old.frames)) }
        ensures list { OnOk result (self.new.parts ≤ length self.new.arena) }
        ensures frames { OnOk result (FramesWithin (length self.new.arena) self.new.frames) }
        ensures arena { OnOk result (Extends self.old.arena self.new.arena) }
        ensures memory { OnOk result (self.new.memory ≡ self.old.memory) }
    {
        self.parts = build(&mut self.arena, turn.built, self.parts)?;
        push_some(&mut self.frames, turn.under)?;
        push_some(&mut self.frames, turn.top)?;
        self.task = turn.task;
        self.far = turn.far;
        Ok(())
    }

    // Goes on by one turn or by the turns whose outcome is remembered, unless it is at the end.
    pub fn turn(
        &mut self,
        tokens: &Tokens,
        rules: &[Rule],
        firsts: &[First],
    ) -> Result<bool, AllocError>
        requires no_left_recursion { HasNoLeftRecursion rules.now }
        requires firsts { AreFirsts rules.now firsts.now }
        requires stands { Stands tokens.now rules.now self.old }
        ensures stands { OnOk result (Stands tokens.now rules.now self.new) }
        ensures turned { IfOk result (HasTurned tokens.now rules.now self.old self.new) }
    {
        match self.next(tokens, rules, firsts)? {
            None => Ok(false),
            Some(turn) => {
                self.take(straight_on(turn))?;
                Ok(true)
            }
        }
    }
}
