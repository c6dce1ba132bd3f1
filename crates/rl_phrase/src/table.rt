//! A table of rules.

/// What a row of the table is.
#[derive(Clone, Copy)]
pub enum Form {
    /// The terminal of this number. The row has no parts.
    Term(u32),
    /// The row `first`, whatever it is.
    Link,
    /// A rule: the parts in turn, as a node.
    Named,
    /// The parts in turn.
    Seq,
    /// The first part that succeeds, from the left.
    Choice,
    /// The parts in turn, again and again until they fail or take nothing, or not at all.
    Star,
    /// The same, but at least once.
    Plus,
    /// The parts in turn, or nothing where they fail.
    Opt,
    /// Nothing where the parts in turn fail. It fails where they succeed.
    Not,
}

/// A row. The parts of any but a `Term` and a `Link` are the `count` rows from `first` on.
#[derive(Clone, Copy)]
pub struct Rule {
    pub form: Form,
    pub first: u32,
    pub count: u32,
}
