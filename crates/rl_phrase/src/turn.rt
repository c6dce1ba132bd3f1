//! What one turn of the machine comes to.

ghost use Rattle.std.specs.Prelude.{◌≡◌, ℕ, ◌≤◌, List};
ghost use Rattle.rl_phrase.specs.declared.arena.Cell.{Cell};
ghost use Rattle.rl_phrase.specs.declared.table.Rule.{Rule};
ghost use Rattle.rl_phrase.specs.Terminals.{Tokens};
ghost use Rattle.rl_phrase.specs.Machine.{Pending, failed, done};
ghost use Rattle.rl_phrase.specs.Arena.{parts_in};
ghost use Rattle.rl_phrase.specs.State.{frame_in, outcome_in, after_turn, Comes, FrameWithin, TurnWithin, GivenWithin};

use crate::arena::Item;
use crate::memory::Given;

// Rows that are left.
#[derive(Clone, Copy)]
pub struct Rest {
    pub next: u64,
    pub end: u64,
}

// Where to go back to: the token, and the list of trees.
#[derive(Clone, Copy)]
pub struct Mark {
    pub at: u32,
    pub parts: u32,
}

// What is to be done where a row has succeeded or failed.
#[derive(Clone, Copy)]
pub enum Frame {
    Parts(Rest),
    Choices(Rest, Mark),
    // A named row has begun at the mark; `far` is how far the text had been tried before.
    Naming { row: u32, mark: Mark, far: u32 },
    // A turn of a repetition has begun at the mark; it must not fail where it is the first of one or more.
    Turns { rest: Rest, mark: Mark, must: bool },
    Optional(Mark),
    Negated(Mark),
}

// What is to be done now.
#[derive(Clone, Copy)]
pub enum Task {
    Call { row: u64, at: u32 },
    Succeed(u32),
    Fail,
}

// The list of trees from a turn on: one that is there, or one with a tree more.
#[derive(Clone, Copy)]
pub enum Built {
    Same(u32),
    More(u32, Item),
}

// What a turn comes to: the new task, up to two more frames, the trees, and how far the text was tried.
#[derive(Clone, Copy)]
pub struct Turn {
    pub task: Task,
    pub under: Option<Frame>,
    pub top: Option<Frame>,
    pub built: Built,
    pub far: u32,
}

// A turn to a task, with the same frames.
pub fn to(task: Task, built: Built, far: u32) -> Turn
    ensures { result ≡ record { task = task; under = None; top = None; built = built; far = far } }
{
    Turn {
        task,
        under: None,
        top: None,
        built,
        far,
    }
}

// A turn to a task, with one frame more.
pub fn push(task: Task, top: Frame, built: Built, far: u32) -> Turn
    ensures { result ≡ record { task = task; under = None; top = Some top; built = built; far = far } }
{
    Turn {
        task,
        under: None,
        top: Some(top),
        built,
        far,
    }
}

// A turn to some rows, above a frame.
pub fn begin(rest: Rest, at: u32, under: Frame, built: Built, far: u32) -> Turn
    ensures { result ≡ record { task = Task.Succeed at; under = Some under; top = Some (Frame.Parts rest); built = built; far = far } }
{
    Turn {
        task: Task::Succeed(at),
        under: Some(under),
        top: Some(Frame::Parts(rest)),
        built,
        far,
    }
}

// A turn that goes on to the first of its rows at once, if it has one.
pub fn straight_on(turn: Turn) -> Turn
    ensures means { (tokens : Tokens) (rules : List Rule) (cells : List Cell) (frames : List Pending) → Comes tokens rules (after_turn cells turn frames) (after_turn cells result frames) }
    ensures within { (n : ℕ) → TurnWithin n turn → TurnWithin n result }
{
    match (turn.task, turn.top) {
        (Task::Succeed(at), Some(Frame::Parts(Rest { next, end }))) if next < end => Turn {
            task: Task::Call { row: next, at },
            top: Some(Frame::Parts(Rest {
                next: next + 1,
                end,
            })),
            ..turn
        },
        _ => turn,
    }
}

// A row whose outcome is remembered.
pub fn recalled(given: Given, parts: u32, far: u32) -> Turn
    ensures means { (cells : List Cell) (frames : List Pending) → after_turn cells result frames ≡ done (outcome_in cells given) frames (parts_in cells parts) far }
    ensures within { (n : ℕ) → parts ≤ n → GivenWithin n given → TurnWithin n result }
{
    match given {
        Given::Failure { far: own } => to(Task::Fail, Built::Same(parts), far.max(own)),
        Given::Success {
            item,
            next,
            far: own,
        } => to(Task::Succeed(next), Built::More(parts, item), far.max(own)),
    }
}

// After a failure the frame says what to do.
pub fn fail(frame: Frame, far: u32) -> Turn
    ensures means { (cells : List Cell) (frames : List Pending) → after_turn cells result frames ≡ failed (frame_in cells frame) frames far }
    ensures within { (n : ℕ) → FrameWithin n frame → TurnWithin n result }
{
    match frame {
        Frame::Choices(Rest { next, end }, mark) if next < end => {
            let rest = Rest {
                next: next + 1,
                end,
            };
            push(
                Task::Call {
                    row: next,
                    at: mark.at,
                },
                Frame::Choices(rest, mark),
                Built::Same(mark.parts),
                far,
            )
        }
        Frame::Turns {
            mark,
            must: false,
            ..
        }
        | Frame::Optional(mark)
        | Frame::Negated(mark) => { to(Task::Succeed(mark.at), Built::Same(mark.parts), far) }
        Frame::Naming { far: before, .. } => to(Task::Fail, Built::Same(0), before.max(far)),
        Frame::Parts(_) | Frame::Choices(..) | Frame::Turns { must: true, .. } => {
            to(Task::Fail, Built::Same(0), far)
        }
    }
}
