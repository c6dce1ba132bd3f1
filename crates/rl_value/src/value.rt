//! Shared values.

ghost use Rattle.std.specs.Prelude.{◌≡◌, ◌≤◌, ◌^◌, IfOk};
ghost use Rattle.rl_value.specs.Plain.{plain_size, plain_height};

use crate::shape::{Scheme, Shape};
use std::alloc::AllocError;
use std::marker::Model;
use std::rc::{Rc, RcStr};

/// An immutable value, which its holders share.
#[cycle(value)]
#[derive(Debug, Drop)]
pub struct Value {
    pub(crate) form: Form,
}

#[cycle(value)]
#[derive(Debug, Drop)]
pub(crate) enum Form {
    Bool(bool),
    Int(i128),
    Text(RcStr),
    Location(Rc<Place>),
    Tuple(Rc<Parts>),
    List(Rc<Parts>),
    Set(Rc<Parts>),
    Map(Rc<Entries>),
    Node(Rc<Constructor>),
    Tree(Rc<Branch>),
    Leaf(RcStr),
}

/// What a location says.
#[derive(Debug, Drop)]
pub(crate) struct Place {
    pub(crate) scheme: Scheme,
    pub(crate) path: RcStr,
    pub(crate) span: Option<(u32, u32)>,
}

/// The values inside one, with its size and height.
#[cycle(value)]
#[derive(Debug, Drop)]
pub(crate) struct Parts {
    pub(crate) size: u32,
    pub(crate) height: u32,
    pub(crate) items: Vec<Value>,
}

/// A constructor with its fields.
#[cycle(value)]
#[derive(Debug, Drop)]
pub(crate) struct Constructor {
    pub(crate) name: RcStr,
    pub(crate) fields: Parts,
}

/// A syntax tree with its parts.
#[cycle(value)]
#[derive(Debug, Drop)]
pub(crate) struct Branch {
    pub(crate) shape: Shape,
    pub(crate) parts: Parts,
    /// For each part, how many kids the parts up to it give.
    pub(crate) kid_ends: Vec<u32>,
}

/// A key of a map, with its value.
#[cycle(value)]
#[derive(Debug, Drop)]
pub struct Entry {
    pub key: Value,
    pub value: Value,
}

/// The keys and values of a map, with its size and height.
#[cycle(value)]
#[derive(Debug, Drop)]
pub(crate) struct Entries {
    pub(crate) size: u32,
    pub(crate) height: u32,
    pub(crate) pairs: Vec<Entry>,
}

impl Model for Value {
    ghost use Rattle.rl_value.specs.Plain.{Plain, plain_size};
    ghost use Rattle.rl_value.specs.Laws.{plain_code};

    ghost Value = { Plain };

    ghost coded = { plain_code };

    ghost use Rattle.rl_value.specs.View.{plain_of, IsRight};

    ghost view = { λ a. plain_of a.form };

    ghost invariant = { λ a. IsRight a.form };

    ghost size = { plain_size };

    ghost use Rattle.rl_value.specs.Falls.{depth_le-plain_size};

    ghost size_decreases = { λ a h. depth_le-plain_size a.form };
}

impl Value {
    /// One for the value itself, with the bytes of a text or path, and the sizes of its parts, keys
    /// and values. It is at most 2^24.
    pub fn size(&self) -> u32
        ensures value { result ≡ plain_size self.now }
        ensures within { plain_size self.now ≤ 2 ^ 24 }
    {
        match &self.form {
            Form::Bool(_) | Form::Int(_) => 1,
            Form::Text(text) | Form::Leaf(text) => 1 + text.len() as u32,
            Form::Location(place) => 1 + place.path.len() as u32,
            Form::Tuple(parts) | Form::List(parts) | Form::Set(parts) => parts.size,
            Form::Map(entries) => entries.size,
            Form::Node(node) => node.fields.size,
            Form::Tree(tree) => tree.parts.size,
        }
    }

    /// 1 without parts, else one more than the highest part. It is at most 2,000.
    pub fn height(&self) -> u32
        ensures value { result ≡ plain_height self.now }
        ensures within { plain_height self.now ≤ 2000 }
    {
        match &self.form {
            Form::Bool(_) | Form::Int(_) | Form::Text(_) | Form::Location(_) | Form::Leaf(_) => 1,
            Form::Tuple(parts) | Form::List(parts) | Form::Set(parts) => parts.height,
            Form::Map(entries) => entries.height,
            Form::Node(node) => node.fields.height,
            Form::Tree(tree) => tree.parts.height,
        }
    }

    /// The same value; the parts are shared, not copied.
    pub fn share(&self) -> Result<Value, AllocError>
        ensures { IfOk result (λ v. v ≡ self.now) }
    {
        let form = match &self.form {
            Form::Bool(b) => Form::Bool(*b),
            Form::Int(n) => Form::Int(*n),
            Form::Text(text) => Form::Text(text.clone()?),
            Form::Location(place) => Form::Location(place.clone()?),
            Form::Tuple(parts) => Form::Tuple(parts.clone()?),
            Form::List(parts) => Form::List(parts.clone()?),
            Form::Set(parts) => Form::Set(parts.clone()?),
            Form::Map(entries) => Form::Map(entries.clone()?),
            Form::Node(node) => Form::Node(node.clone()?),
            Form::Tree(tree) => Form::Tree(tree.clone()?),
            Form::Leaf(text) => Form::Leaf(text.clone()?),
        };
        Ok(Value { form })
    }
}
