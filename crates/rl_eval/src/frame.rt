//! What waits, and what comes next.

use crate::form::Form;
use crate::literal::Literal;
use rl_base::Row;
use rl_value::Value;

/// A form that waits for a form that it uses.
#[derive(Drop)]
pub enum Frame {
    /// A body waits for a statement; the number is that of the next one.
    Body(Row<Literal>, usize),
    /// An expression statement waits for its expression.
    Statement,
    /// A call of `println` waits for its argument.
    Println(Literal),
}

/// What is bound under a member that is taken.
#[derive(Drop)]
pub enum Member {
    /// The parameters of an alternative, which has this body.
    Parameters(Row<Literal>),
}

/// What comes next.
#[derive(Drop)]
pub enum Next {
    /// A form is entered.
    Enter(Form),
    /// A member is taken.
    Take(Member),
    /// A form is left with its value.
    Leave(Value),
    /// A piece is put out, and then a form is left with its value.
    Put(Row<u8>, Value),
}
