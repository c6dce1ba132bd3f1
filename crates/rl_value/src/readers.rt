//! What is read from a value.

ghost use Rattle.std.specs.Prelude.{◌≡◌, ◌↔◌, IsTrue, ◌<◌, length, slice_get, All, Some};
ghost use Rattle.std.specs.Option.{option_copied, option_map};
ghost use Rattle.rl_value.specs.Plain.{IsPart, IsTree};
ghost use Rattle.rl_value.specs.Readers.{kind_of, as_bool, as_int, as_text, name_of, shape_in, scheme_of, path_of, span_of, parts_of, leaf_bytes};
ghost use Rattle.rl_value.specs.View.{shape_of};

use crate::kind::Kind;
use crate::shape::{Scheme, Shape};
use crate::value::{Form, Value};

impl Value {
    /// The kind, without the contents.
    pub fn kind(&self) -> Kind
        ensures { result ≡ kind_of self.now }
    {
        match &self.form {
            Form::Bool(_) => Kind::Bool,
            Form::Int(_) => Kind::Int,
            Form::Text(_) => Kind::Text,
            Form::Location(_) => Kind::Location,
            Form::Tuple(_) => Kind::Tuple,
            Form::List(_) => Kind::List,
            Form::Set(_) => Kind::Set,
            Form::Map(_) => Kind::Map,
            Form::Node(_) => Kind::Node,
            Form::Tree(_) => Kind::Tree,
            Form::Leaf(_) => Kind::Leaf,
        }
    }

    /// Whether this is a syntax tree.
    pub fn is_tree(&self) -> bool
        ensures { IsTrue result ↔ IsTree self.now }
    {
        match &self.form {
            Form::Tree(_) => true,
            Form::Bool(_) | Form::Int(_) | Form::Text(_) | Form::Location(_) | Form::Tuple(_) =>
                false,
            Form::List(_) | Form::Set(_) | Form::Map(_) | Form::Node(_) | Form::Leaf(_) => false,
        }
    }

    /// Whether this is a syntax tree or a leaf, and so can be a part of a tree.
    pub fn is_part(&self) -> bool
        ensures { IsTrue result ↔ IsPart self.now }
    {
        match &self.form {
            Form::Tree(_) | Form::Leaf(_) => true,
            Form::Bool(_) | Form::Int(_) | Form::Text(_) | Form::Location(_) | Form::Tuple(_) =>
                false,
            Form::List(_) | Form::Set(_) | Form::Map(_) | Form::Node(_) => false,
        }
    }

    /// The truth value that this is.
    pub fn as_bool(&self) -> Option<bool>
        ensures { result ≡ as_bool self.now }
    {
        match &self.form {
            Form::Bool(b) => Some(*b),
            _ => None,
        }
    }

    /// The number that this is.
    pub fn as_int(&self) -> Option<i128>
        ensures { result ≡ as_int self.now }
    {
        match &self.form {
            Form::Int(n) => Some(*n),
            _ => None,
        }
    }

    /// The text that this is, of a text or a leaf.
    pub fn as_text(&self) -> Option<&str>
        ensures { option_copied result ≡ as_text self.now }
    {
        match &self.form {
            Form::Text(text) | Form::Leaf(text) => Some(text.as_str()),
            _ => None,
        }
    }

    /// The name of a constructor.
    pub fn name(&self) -> Option<&str>
        ensures { option_copied result ≡ name_of self.now }
    {
        match &self.form {
            Form::Node(node) => Some(node.name.as_str()),
            _ => None,
        }
    }

    /// The shape of a syntax tree.
    pub fn shape(&self) -> Option<&Shape>
        ensures { option_map shape_of (option_copied result) ≡ shape_in self.now }
    {
        match &self.form {
            Form::Tree(tree) => Some(&tree.shape),
            _ => None,
        }
    }

    /// The scheme of a location.
    pub fn scheme(&self) -> Option<Scheme>
        ensures { result ≡ scheme_of self.now }
    {
        match &self.form {
            Form::Location(place) => Some(place.scheme),
            _ => None,
        }
    }

    /// The path of a location.
    pub fn path(&self) -> Option<&str>
        ensures { option_copied result ≡ path_of self.now }
    {
        match &self.form {
            Form::Location(place) => Some(place.path.as_str()),
            _ => None,
        }
    }

    /// The offset and length of a location that has them.
    pub fn span(&self) -> Option<(u32, u32)>
        ensures { result ≡ span_of self.now }
    {
        match &self.form {
            Form::Location(place) => place.span,
            _ => None,
        }
    }

    /// The parts of a syntax tree as they stand, and none of another value.
    #[tactic(auto, using(crate::specs::Plain::back))]
    pub(crate) fn parts(&self) -> &[Value]
        ensures items { result.now ≡ parts_of self.now }
        ensures parts { All IsPart result.now }
    {
        match &self.form {
            Form::Tree(tree) => tree.parts.items.as_slice(),
            _ => &[],
        }
    }

    /// The bytes of a leaf, and none of another value.
    pub(crate) fn leaf_bytes(&self) -> &[u8]
        ensures { result.now ≡ leaf_bytes self.now }
    {
        match &self.form {
            Form::Leaf(text) => text.as_bytes(),
            _ => &[],
        }
    }
}
