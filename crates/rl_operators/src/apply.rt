//! What the operators answer.

ghost use Rattle.rl_exception.specs.Answer.{Answers};
ghost use Rattle.rl_operators.specs.Apply.{binary_of, unary_of};

use crate::arithmetic::{divide, negate, take_remainder};
use crate::comparison::{equal, less, less_or_equal, not_equal};
use crate::logic::{equivalent, implies, negation, or};
use crate::membership::{has_name, is_in, is_not_in};
use crate::operator::{BinOp, UnOp};
use crate::products::multiply;
use crate::sums::{add, intersect, subtract};
use rl_exception::OpEnd;
use rl_relation::{closure, compose, reflexive_closure};
use rl_value::Value;
use std::alloc::Global;

/// What an operator gives or throws. An operand of a kind that it does not take throws `WrongKind()`; `||`
/// and `==>` look at the right one only where it is needed. A result that passes a limit of values throws
/// `TooLarge()`.
pub fn binary(alloc: Global, op: BinOp, a: &Value, b: &Value) -> Result<Value, OpEnd>
    ensures { Answers (binary_of op a.now b.now) result }
{
    match op {
        BinOp::Add => add(alloc, a, b),
        BinOp::Subtract => subtract(alloc, a, b),
        BinOp::Multiply => multiply(alloc, a, b),
        BinOp::Divide => divide(alloc, a, b),
        BinOp::Remainder => take_remainder(alloc, a, b),
        BinOp::Intersect => intersect(alloc, a, b),
        BinOp::Compose => compose(alloc, a, b),
        BinOp::Equal => Ok(equal(a, b)),
        BinOp::NotEqual => Ok(not_equal(a, b)),
        BinOp::Less => less(alloc, a, b),
        BinOp::LessOrEqual => less_or_equal(alloc, a, b),
        BinOp::Greater => less(alloc, b, a),
        BinOp::GreaterOrEqual => less_or_equal(alloc, b, a),
        BinOp::In => is_in(alloc, a, b),
        BinOp::NotIn => is_not_in(alloc, a, b),
        BinOp::Is => has_name(alloc, a, b),
        BinOp::Or => or(alloc, a, b),
        BinOp::Implies => implies(alloc, a, b),
        BinOp::Equivalent => equivalent(alloc, a, b),
    }
}

/// The same of an operator on one value.
pub fn unary(alloc: Global, op: UnOp, a: &Value) -> Result<Value, OpEnd>
    ensures { Answers (unary_of op a.now) result }
{
    match op {
        UnOp::Negate => negate(alloc, a),
        UnOp::Not => negation(alloc, a),
        UnOp::TransitiveClosure => closure(alloc, a),
        UnOp::ReflexiveClosure => reflexive_closure(alloc, a),
    }
}
