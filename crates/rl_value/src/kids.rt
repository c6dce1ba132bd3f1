//! The values directly inside a value, and the value with others in their place.

ghost use Rattle.std.specs.Prelude.{◌≡◌, ◌≤◌, ◌<◌, ◌^◌, ◌+◌, ◌-◌, IfOk, map, IsTrue, ◌↔◌, length, [], slice_get, slice_index, slice_index_or, Some};
ghost use Rattle.rl_value.specs.Plain.{leaf, IsPart, IsTree, plains_of, plains_size, pairs_of, pairs_size};
ghost use Rattle.rl_value.specs.Readers.{parts_of};
ghost use Rattle.rl_value.specs.Kids.{kids, part_kids, parts_kids, pairs_kids, kid_ends, is_opened, before};
ghost use Rattle.rl_value.specs.View.{pair_of};

use crate::shape::Role;
use crate::value::{Entry, Form, Value};
use std::alloc::{AllocError, Global};

impl Value {
    /// How many values stand directly inside. For a map these are key, value, key, value. A syntax tree
    /// passes over leaves and layout, and has in place of a repetition or an option what is inside it.
    #[tactic(auto, using(crate::specs::Plain::back))]
    pub fn child_count(&self) -> u32
        ensures { result ≡ length (kids self.now) }
    {
        match &self.form {
            Form::Tuple(parts) | Form::List(parts) | Form::Set(parts) => count(&parts.items),
            Form::Map(entries) => count_pairs(&entries.pairs),
            Form::Node(node) => count(&node.fields.items),
            Form::Tree(tree) => last_end(&tree.kid_ends, &tree.parts.items),
            Form::Bool(_) | Form::Int(_) | Form::Text(_) | Form::Location(_) | Form::Leaf(_) => 0,
        }
    }

    /// The value at this place directly inside, counted from 0 as `child_count` counts.
    #[tactic(auto, using(crate::specs::Plain::back))]
    pub fn child(&self, i: u32) -> &Value
        requires { i < length (kids self.now) }
        ensures value { slice_get (kids self.now) i ≡ Some result.now }
        ensures tree { IsTree self.now → IsTree result.now }
    {
        match &self.form {
            Form::Tree(tree) => {
                let place = place_in(&tree.kid_ends, &tree.parts.items, i);
                let part = &tree.parts.items[place.part];
                if part.is_opened() {
                    part.child(place.inside)
                } else {
                    part
                }
            }
            Form::Tuple(parts) | Form::List(parts) | Form::Set(parts) => nth(&parts.items, i),
            Form::Map(entries) => nth_of_pairs(&entries.pairs, i),
            Form::Node(node) => nth(&node.fields.items, i),
            Form::Bool(_) | Form::Int(_) | Form::Text(_) | Form::Location(_) | Form::Leaf(_) => {
                unreachable!()
            }
        }
    }

    /// How many parts a syntax tree has: leaves, layout, repetitions and options among them. It is 0 for
    /// another value.
    #[tactic(auto, using(crate::specs::Plain::back))]
    pub fn part_count(&self) -> u32
        ensures { result ≡ length (parts_of self.now) }
    {
        match &self.form {
            Form::Tree(tree) => count(&tree.parts.items),
            _ => 0,
        }
    }

    /// The part of a syntax tree at this place, counted from 0.
    pub fn part(&self, i: u32) -> &Value
        requires { i < length (parts_of self.now) }
        ensures value { slice_get (parts_of self.now) i ≡ Some result.now }
        ensures part { IsPart result.now }
    {
        let parts = self.parts();
        &parts[i as usize]
    }

    /// Whether a part of a tree gives what is inside it.
    pub(crate) fn is_opened(&self) -> bool
        ensures { result ≡ is_opened self.now }
    {
        match &self.form {
            Form::Tree(tree) => match tree.shape.role {
                Role::Rep | Role::Opt => true,
                Role::Syntax | Role::Lexical | Role::Layout | Role::Keyword => false,
            },
            _ => false,
        }
    }

    /// How many kids a part gives the tree that it stands in.
    pub(crate) fn given_kids(&self) -> u32
        ensures { result ≡ length (part_kids self.now) }
    {
        match &self.form {
            Form::Tree(tree) => match tree.shape.role {
                Role::Rep | Role::Opt => self.child_count(),
                Role::Layout => 0,
                Role::Syntax | Role::Lexical | Role::Keyword => 1,
            },
            Form::Leaf(_) => 0,
            _ => 1,
        }
    }
}

#[tactic(auto, using(crate::proofs::KidsLemmas::length_le_size))]
fn count(items: &[Value]) -> u32
    requires { plains_size (plains_of items.now) < 2 ^ 24 }
    ensures { result ≡ length items.now }
{
    items.len() as u32
}

fn nth(items: &[Value], i: u32) -> &Value
    requires { i < length items.now }
    ensures { slice_get items.now i ≡ Some result.now }
{
    &items[i as usize]
}

fn nth_of_pairs(pairs: &[Entry], i: u32) -> &Value
    requires { i < length (pairs_kids (pairs_of (map pair_of pairs.now))) }
    ensures { slice_get (pairs_kids (pairs_of (map pair_of pairs.now))) i ≡ Some result.now }
{
    let entry = &pairs[(i / 2) as usize];
    if i % 2 == 0 { &entry.key } else { &entry.value }
}

#[tactic(auto, using(crate::proofs::KidsLemmas::pairs_le_size, crate::proofs::KidsLemmas::count_pairs_kids))]
fn count_pairs(pairs: &[Entry]) -> u32
    requires { pairs_size (pairs_of (map pair_of pairs.now)) < 2 ^ 24 }
    ensures { result ≡ length (pairs_kids (pairs_of (map pair_of pairs.now))) }
{
    2 * pairs.len() as u32
}

fn last_end(ends: &[u32], parts: &[Value]) -> u32
    requires { ends.now ≡ kid_ends 0 parts.now }
    ensures { result ≡ length (parts_kids (plains_of parts.now)) }
{
    let _ = parts;
    match ends.last() {
        Some(end) => *end,
        None => 0,
    }
}

// The part of a tree in which one of its kids stands, and the kid's place inside that part.
#[derive(Clone, Copy)]
struct Place {
    part: usize,
    inside: u32,
}

// Where the kid at place i stands.
fn place_in(ends: &[u32], parts: &[Value], i: u32) -> Place
    requires ends { ends.now ≡ kid_ends 0 parts.now }
    requires within { i < length (parts_kids (plains_of parts.now)) }
    ensures part { result.part < length parts.now }
    ensures inside { result.inside < length (part_kids (slice_index_or parts.now result.part (leaf []))) }
    ensures kid { slice_get (parts_kids (plains_of parts.now)) i ≡ slice_get (part_kids (slice_index_or parts.now result.part (leaf []))) result.inside }
{
    let part = first_after(ends, i);
    let before = before(ends, part);
    Place {
        part,
        inside: i - before,
    }
}

// How many kids the parts before this one give.
fn before(ends: &[u32], part: usize) -> u32
    requires { part ≤ length ends.now }
    ensures { result ≡ before 0 ends.now part }
{
    if part == 0 { 0 } else { ends[part - 1] }
}

// The place of the first end after i, by halving.
fn first_after(ends: &[u32], i: u32) -> usize
    requires some { 0 < length ends.now }
    requires within { i < slice_index ends.now (length ends.now - 1) }
    ensures bound { result < length ends.now }
    ensures after { i < slice_index ends.now result }
    ensures before { 0 < result → slice_index ends.now (result - 1) ≤ i }
{
    let mut low = 0;
    let mut high = ends.len() - 1;
    while low < high {
        let mid = low + (high - low) / 2;
        if ends[mid] <= i {
            low = mid + 1;
        } else {
            high = mid;
        }
    }
    low
}

/// For each part, how many kids the parts up to it give.
pub(crate) fn kid_ends(alloc: Global, parts: &[Value]) -> Result<Vec<u32>, AllocError>
    requires { plains_size (plains_of parts.now) < 2 ^ 24 }
    ensures { IfOk result (λ ends. ends.items ≡ kid_ends 0 parts.now) }
{
    let mut ends = Vec::with_capacity(alloc, parts.len())?;
    let mut count = 0;
    for part in parts {
        count += part.given_kids();
        ends.push(count)?;
    }
    Ok(ends)
}
