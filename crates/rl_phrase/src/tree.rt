//! Phrases: trees over tokens.

/// A node of the tree: the number of its row, its first token, the token behind its last one, and its parts.
#[derive(Drop)]
#[cycle(phrase)]
pub struct Phrase {
    pub rule: u32,
    pub from: u32,
    pub to: u32,
    pub parts: Vec<Part>,
}

/// A token, by its number from 0 on, or a node.
#[derive(Drop)]
#[cycle(phrase)]
pub enum Part {
    Token(u32),
    Node(Phrase),
}
