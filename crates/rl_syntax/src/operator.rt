//! Operators and strategies.

/// An operator of a sum.
#[derive(Clone, Copy, Debug, PartialEq, Eq)]
pub enum SumOperator {
    /// `+`
    Add,
    /// `-`
    Subtract,
    /// `&`
    Intersect,
}

/// An operator of a product.
#[derive(Clone, Copy, Debug, PartialEq, Eq)]
pub enum ProductOperator {
    /// `*`
    Multiply,
    /// `/`
    Divide,
    /// `%`
    Remainder,
}

/// A comparison by order or by membership.
#[derive(Clone, Copy, Debug, PartialEq, Eq)]
pub enum Comparison {
    /// `<=`
    LessOrEqual,
    /// `>=`
    GreaterOrEqual,
    /// `<`
    Less,
    /// `>`
    Greater,
    /// `in`
    In,
    /// `notin`
    NotIn,
}

/// How a statement assigns.
#[derive(Clone, Copy, Debug, PartialEq, Eq)]
pub enum Assignment {
    /// `=`
    Set,
    /// `+=`
    Add,
    /// `-=`
    Subtract,
    /// `*=`
    Multiply,
    /// `/=`
    Divide,
    /// `&=`
    Intersect,
}

/// In which order a visit meets the nodes of a value.
#[derive(Clone, Copy, Debug, PartialEq, Eq)]
pub enum Strategy {
    /// `innermost`: bottom-up, until a traversal changes nothing.
    Innermost,
    /// `outermost`: top-down, until a traversal changes nothing.
    Outermost,
    /// `top-down`: a node, then the children of what came of it.
    TopDown,
    /// `top-down-break`: as top-down, but not below a node that was served.
    TopDownBreak,
    /// `bottom-up`: the children, then the node. A visit that names no strategy has this one.
    BottomUp,
    /// `bottom-up-break`: as bottom-up, but not above a node that was served.
    BottomUpBreak,
}
