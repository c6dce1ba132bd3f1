//! What the rules are about.

use crate::literal::Literal;
use rl_base::Row;

/// What takes a unit where it is used.
#[derive(Drop)]
pub enum Form {
    /// An alternative of `main`, with the literals that its body prints.
    Alternative(Row<Literal>),
    /// The statement `println(LITERAL);`
    Statement(Literal),
    /// The call `println(LITERAL)`
    Call(Literal),
    /// The literal as an expression
    Literal(Literal),
}
