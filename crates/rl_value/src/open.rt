//! A value by its kind and parts.

ghost use Rattle.std.specs.Prelude.{◌≡◌};
ghost use Rattle.rl_value.specs.Plain.{Fits};
ghost use Rattle.rl_value.specs.Opened.{closed, IsInOrder};

use crate::shape::{Scheme, Shape};
use crate::value::{Entry, Form, Value};

/// One level of a value, to match on.
#[derive(Clone, Copy)]
pub enum Opened<'a> {
    Bool(bool),
    Int(i128),
    Text(&'a str),
    /// A scheme, a path, and an offset with a length.
    Location(Scheme, &'a str, Option<(u32, u32)>),
    Tuple(&'a [Value]),
    List(&'a [Value]),
    /// The elements rise.
    Set(&'a [Value]),
    /// The keys rise.
    Map(&'a [Entry]),
    /// A constructor's name and its fields.
    Node(&'a str, &'a [Value]),
    /// A syntax tree with its parts.
    Tree(&'a Shape, &'a [Value]),
    /// A text in a syntax tree.
    Leaf(&'a str),
}

impl Value {
    /// One level of this value.
    #[tactic(auto, using(crate::specs::Plain::back, crate::proofs::EntryLemmas::opened))]
    pub fn open(&self) -> Opened<'_>
        ensures value { closed result ≡ self.now }
        ensures fits { Fits self.now }
        ensures order { IsInOrder self.now }
    {
        match &self.form {
            Form::Bool(b) => Opened::Bool(*b),
            Form::Int(n) => Opened::Int(*n),
            Form::Text(text) => Opened::Text(text.as_str()),
            Form::Location(place) => Opened::Location(
                place.scheme,
                place.path.as_str(),
                place.span,
            ),
            Form::Tuple(parts) => Opened::Tuple(parts.items.as_slice()),
            Form::List(parts) => Opened::List(parts.items.as_slice()),
            Form::Set(parts) => Opened::Set(parts.items.as_slice()),
            Form::Map(entries) => Opened::Map(entries.pairs.as_slice()),
            Form::Node(node) => Opened::Node(node.name.as_str(), node.fields.items.as_slice()),
            Form::Tree(tree) => Opened::Tree(&tree.shape, tree.parts.items.as_slice()),
            Form::Leaf(text) => Opened::Leaf(text.as_str()),
        }
    }
}
