//! The kinds of values.

/// The kinds of values, in their order.
#[derive(Clone, Copy, Debug, PartialEq, Eq)]
pub enum Kind {
    Bool,
    Int,
    Text,
    Location,
    Tuple,
    List,
    Set,
    Map,
    /// A constructor with its fields.
    Node,
    /// A syntax tree.
    Tree,
    /// A text in a syntax tree.
    Leaf,
}
