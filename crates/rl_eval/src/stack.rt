//! The frames that wait, and the steps that every form is made of.

ghost use Rattle.std.specs.Prelude.{◌≡◌, [], IfOk};
ghost use Rattle.rl_eval.specs.Rule.{Give, Use, Take, Put};
ghost use Rattle.rl_eval.specs.Frames.{Goes, resume, under};

use crate::form::Form;
use crate::frame::{Frame, Member, Next};
use rl_base::Row;
use rl_value::Value;
use std::alloc::{AllocError, Global};

/// The frames that wait, the last of them for what comes next.
#[derive(Drop)]
pub struct Stack {
    pub alloc: Global,
    pub frames: Vec<Frame>,
}

impl Stack {
    /// Nothing waits.
    pub fn new(alloc: Global) -> Stack
        ensures { result.frames.items ≡ [] }
    {
        Stack {
            alloc,
            frames: Vec::new(alloc),
        }
    }

    /// Ends a form in its value.
    pub fn give(&mut self, value: Value) -> Next
        ensures { Goes self.old.frames.items (Give value) result self.new.frames.items }
    {
        Next::Leave(value)
    }

    /// Takes a member.
    pub fn take(&mut self, member: Member) -> Next
        ensures { Goes self.old.frames.items (Take (under member)) result self.new.frames.items }
    {
        Next::Take(member)
    }

    /// Uses a form, and goes on with the frame.
    pub fn use_form(&mut self, form: Form, frame: Frame) -> Result<Next, AllocError>
        ensures { IfOk result (λ next. Goes self.old.frames.items (Use form (resume frame)) next self.new.frames.items) }
    {
        self.frames.push(frame)?;
        Ok(Next::Enter(form))
    }

    /// Puts a piece out, and ends a form in its value.
    pub fn put(&mut self, piece: Row<u8>, value: Value) -> Next
        ensures { Goes self.old.frames.items (Put piece (Give value)) result self.new.frames.items }
    {
        Next::Put(piece, value)
    }
}
