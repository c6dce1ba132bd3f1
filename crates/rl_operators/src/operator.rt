//! The operators.

/// An operator between two values.
#[derive(Clone, Copy, Debug, PartialEq, Eq)]
pub enum BinOp {
    /// `+`
    Add,
    /// `-`
    Subtract,
    /// `*`
    Multiply,
    /// `/`
    Divide,
    /// `%`
    Remainder,
    /// `&`
    Intersect,
    /// `o`
    Compose,
    /// `==`
    Equal,
    /// `!=`
    NotEqual,
    /// `<`
    Less,
    /// `<=`
    LessOrEqual,
    /// `>`
    Greater,
    /// `>=`
    GreaterOrEqual,
    /// `in`
    In,
    /// `notin`
    NotIn,
    /// `is`; the right operand is the name as a text.
    Is,
    /// `||`
    Or,
    /// `==>`
    Implies,
    /// `<==>`
    Equivalent,
}

/// An operator on one value.
#[derive(Clone, Copy, Debug, PartialEq, Eq)]
pub enum UnOp {
    /// `-`
    Negate,
    /// `!`
    Not,
    /// `+` behind a relation.
    TransitiveClosure,
    /// `*` behind a relation.
    ReflexiveClosure,
}
