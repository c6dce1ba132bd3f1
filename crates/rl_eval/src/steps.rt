//! The steps of each form.

ghost use Rattle.std.specs.Prelude.{◌≡◌, IfOk, drop};
ghost use Rattle.rl_value.specs.Plain.{empty_tuple};
ghost use Rattle.rl_eval.specs.Rules.{body, rule_of};
ghost use Rattle.rl_eval.specs.Frames.{Goes, resume, under};

use crate::form::Form;
use crate::frame::{Frame, Member, Next};
use crate::literal::Literal;
use crate::stack::Stack;
use rl_base::Row;
use rl_value::{BuildEnd, Value};
use std::alloc::{AllocError, Global};

// The empty tuple.
fn nothing(alloc: Global) -> Result<Value, AllocError>
    ensures { IfOk result (λ value. value ≡ empty_tuple) }
{
    match rl_value::tuple(alloc, Vec::new(alloc)) {
        Ok(value) => Ok(value),
        Err(BuildEnd::OutOfMemory) => Err(AllocError),
        Err(BuildEnd::TooLarge) => unreachable!(),
    }
}

// The statements of a body from a number on.
fn statements(stack: &mut Stack, literals: Row<Literal>, from: usize) -> Result<Next, AllocError>
    ensures { IfOk result (λ next. Goes stack.old.frames.items (body (drop from literals)) next stack.new.frames.items) }
{
    match literals.as_slice().get(from) {
        None => {
            let value = nothing(stack.alloc)?;
            Ok(stack.give(value))
        }
        Some(literal) => {
            let literal = literal.share()?;
            stack.use_form(Form::Statement(literal), Frame::Body(literals, from + 1))
        }
    }
}

/// Enters a form.
#[tactic(auto, unfolding(crate::specs::Rules::rule_of))]
pub fn enter(stack: &mut Stack, form: Form) -> Result<Next, AllocError>
    ensures { IfOk result (λ next. Goes stack.old.frames.items (rule_of form) next stack.new.frames.items) }
{
    match form {
        Form::Alternative(literals) => Ok(stack.take(Member::Parameters(literals))),
        Form::Statement(literal) => stack.use_form(Form::Call(literal), Frame::Statement),
        Form::Call(literal) => {
            let argument = literal.share()?;
            stack.use_form(Form::Literal(argument), Frame::Println(literal))
        }
        Form::Literal(literal) => {
            let value = literal.value(stack.alloc)?;
            Ok(stack.give(value))
        }
    }
}

/// Goes on under a member that was taken.
pub fn begin(stack: &mut Stack, member: Member) -> Result<Next, AllocError>
    ensures { IfOk result (λ next. Goes stack.old.frames.items (under member) next stack.new.frames.items) }
{
    match member {
        Member::Parameters(literals) => statements(stack, literals, 0),
    }
}

/// Goes on with a form, where the form that it waited for is left with this value.
pub fn resume(stack: &mut Stack, frame: Frame, value: Value) -> Result<Next, AllocError>
    ensures { IfOk result (λ next. Goes stack.old.frames.items (resume frame value) next stack.new.frames.items) }
{
    match frame {
        Frame::Body(literals, from) => statements(stack, literals, from),
        Frame::Statement => Ok(stack.give(value)),
        Frame::Println(literal) => {
            let line = Row::from_vec(stack.alloc, literal.line(stack.alloc)?)?;
            let value = nothing(stack.alloc)?;
            Ok(stack.put(line, value))
        }
    }
}
