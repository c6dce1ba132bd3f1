//! A value with other children.

ghost use Rattle.std.specs.Prelude.{◌≡◌, ◌≤◌, [], length, All, IfOk, Err};
ghost use Rattle.rl_value.specs.Plain.{list, plains_of, Fits, IsPart, IsTree, tree};
ghost use Rattle.rl_value.specs.View.{tree_of, shape_of};
ghost use Rattle.rl_value.specs.Built.{Builds};
ghost use Rattle.rl_value.specs.Kids.{kids as kids_of, part_kids, parts_kids, renew, renew_part, renew_parts, in_pairs};
ghost use Rattle.rl_value.specs.declared.build_end.BuildEnd.TheVariants.{TooLarge};

use crate::build::{list, node_of, tree, tuple};
use crate::build_end::BuildEnd;
use crate::collect::{map, set};
use crate::shape::Role;
use crate::value::{Branch, Form, Value};
use std::alloc::{AllocError, Global};

impl Value {
    /// This value with others in place of those directly inside, as `child` counts them. A set is put in
    /// order again. In a map the later of two equal keys wins. A syntax tree keeps its leaves and layout.
    pub fn with_children(&self, alloc: Global, kids: Vec<Value>) -> Result<Value, BuildEnd>
        requires count { length kids.items ≡ length (kids_of self.now) }
        requires trees { IsTree self.now → All IsTree kids.items }
        ensures { Builds (renew self.now kids.items) result }
    {
        match &self.form {
            Form::Tuple(_) => tuple(alloc, kids),
            Form::List(_) => list(alloc, kids),
            Form::Set(_) => set(alloc, kids),
            Form::Map(_) => {
                let pairs = paired(alloc, kids)?;
                map(alloc, pairs)
            }
            Form::Node(node) => {
                let name = node.name.clone()?;
                node_of(alloc, name, kids)
            }
            Form::Tree(tree) => renewed_tree(alloc, tree, &kids),
            Form::Bool(_) | Form::Int(_) | Form::Text(_) | Form::Location(_) | Form::Leaf(_) => {
                let same = shared(self)?;
                Ok(same)
            }
        }
    }
}

// The same value, which fits.
fn shared(value: &Value) -> Result<Value, AllocError>
    ensures { IfOk result (λ v. (v ≡ value.now) × Fits value.now) }
{
    let _size = value.size();
    let _height = value.height();
    let same = value.share()?;
    Ok(same)
}

// The values by twos, as keys and values of a map.
fn paired(alloc: Global, values: Vec<Value>) -> Result<Vec<(Value, Value)>, AllocError>
    ensures { IfOk result (λ pairs. pairs.items ≡ in_pairs values.items) }
{
    let mut pairs = Vec::with_capacity(alloc, values.len() / 2)?;
    let mut rest = values.into_iter();
    while let Some(key) = rest.next() {
        match rest.next() {
            Some(value) => pairs.push((key, value))?,
            None => break,
        }
    }
    Ok(pairs)
}

// A syntax tree with the first of `kids` in place of its own.
#[cycle(renew)]
fn renewed_tree(alloc: Global, old: &Branch, kids: &[Value]) -> Result<Value, BuildEnd>
    requires parts { All IsPart old.now.parts.items.items }
    requires enough { length (parts_kids (plains_of old.now.parts.items.items)) ≤ length kids.now }
    requires trees { All IsTree kids.now }
    ensures { Builds (tree (shape_of old.now.shape) (renew_parts (plains_of old.now.parts.items.items) kids.now)) result }
{
    match renewed_parts(alloc, &old.parts.items, kids) {
        Ok(parts) => {
            let shape = old.shape.share()?;
            tree(alloc, shape, parts)
        }
        Err(end) => Err(end),
    }
}

// The parts from the left, each with the next of `kids`.
#[cycle(renew)]
fn renewed_parts(alloc: Global, parts: &[Value], kids: &[Value]) -> Result<Vec<Value>, BuildEnd>
    requires parts { All IsPart parts.now }
    requires enough { length (parts_kids (plains_of parts.now)) ≤ length kids.now }
    requires trees { All IsTree kids.now }
    ensures parts { IfOk result (λ v. plains_of v.items ≡ renew_parts (plains_of parts.now) kids.now) }
    ensures made { IfOk result (λ v. All IsPart v.items) }
    ensures large { result ≡ Err TooLarge → ¬ Fits (list (renew_parts (plains_of parts.now) kids.now)) }
{
    let mut renewed = Vec::with_capacity(alloc, parts.len())?;
    let mut used = 0;
    for part in parts {
        match renewed_part(alloc, part, &kids[used..]) {
            Ok(part) => renewed.push(part)?,
            Err(end) => return Err(end),
        }
        used += part.given_kids() as usize;
    }
    Ok(renewed)
}

// A part with the first of `kids` in place of what it gives.
#[cycle(renew)]
fn renewed_part(alloc: Global, part: &Value, kids: &[Value]) -> Result<Value, BuildEnd>
    requires part { IsPart part.now }
    requires enough { length (part_kids part.now) ≤ length kids.now }
    requires trees { All IsTree kids.now }
    ensures built { Builds (renew_part part.now kids.now) result }
    ensures part { IfOk result (λ v. IsPart v) }
{
    match &part.form {
        Form::Tree(tree) => match tree.shape.role {
            Role::Rep | Role::Opt => renewed_tree(alloc, tree, kids),
            Role::Layout => {
                let same = shared(part)?;
                Ok(same)
            }
            Role::Syntax | Role::Lexical | Role::Keyword => {
                let kid = shared(&kids[0])?;
                Ok(kid)
            }
        },
        _ => {
            let same = shared(part)?;
            Ok(same)
        }
    }
}
