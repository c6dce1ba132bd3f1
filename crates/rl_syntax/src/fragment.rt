//! Fragments of concrete syntax.

use crate::identifier::PatternVariable;
use rl_base::{Name, Place, Row};

/// A text in the syntax of a sort, with holes for trees: ``(E) `<E a> + 1` ``.
#[derive(Drop)]
pub struct Concrete {
    /// The parenthesis before the sort.
    pub place: Place,
    /// The sort that the text is of, with its place.
    pub sort: Name,
    pub sort_place: Place,
    /// The place of the text between backquotes.
    pub text_place: Place,
    /// The text, its escapes read.
    pub pieces: Row<Piece>,
    /// The number of the fragment, in module and text order. Reading leaves 0, and checking sets it.
    pub number: usize,
}

/// A piece of a fragment.
#[derive(Drop)]
pub enum Piece {
    /// Characters.
    Text(Name),
    /// `<E a>`: a place for a tree of the sort `E`. In a pattern it binds the variable, and in an expression the variable's
    /// tree stands there.
    Hole {
        sort: Name,
        variable: PatternVariable,
    },
}
