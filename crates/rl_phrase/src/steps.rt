//! Trees as flat steps.

// A step of a tree in post-order: a token, or the node of a row, from a token up to another, of the last `count` trees.
#[derive(Clone, Copy)]
pub enum Step {
    Leaf(u32),
    Node {
        rule: u32,
        from: u32,
        to: u32,
        count: usize,
    },
}
