//! The trees of a sort in a syntax tree, as a walk from the left meets them: a tree before its parts.

ghost use Rattle.std.specs.Prelude.{◌≡◌, ◌≤◌, ◌+◌, ◌++◌, OnOk, IfOk, reverse};
ghost use Rattle.rl_value.specs.Plain.{plains_of, tree};
ghost use Rattle.rl_value.specs.View.{shape_of};
ghost use Rattle.rl_trees.specs.Counts.{characters, all_characters};
ghost use Rattle.rl_trees.specs.Walk.{walk, walk_all, is_listed, has_sort};

use crate::counts::leaf_characters;
use rl_value::{Opened, Role, Shape, Value};
use std::alloc::AllocError;

/// A tree with its place in the text of the whole.
#[derive(Debug, Drop)]
pub(crate) struct Span {
    /// The number of characters before it.
    pub(crate) offset: u32,
    /// Its number of characters.
    pub(crate) length: u32,
    pub(crate) tree: Value,
}

/// Appends the trees of a sort in a part that ends at an offset, the last one first. Answers the offset
/// at which the part begins.
#[cycle(walk)]
pub(crate) fn walk_back(
    found: &mut Vec<Span>,
    sort: &str,
    end: u32,
    part: &Value,
) -> Result<u32, AllocError>
    requires { characters part.now ≤ end }
    ensures start { IfOk result (λ start. start + characters part.now ≡ end) }
    ensures found { IfOk result (λ start. found.new.items ≡ found.old.items ++ reverse (walk sort.now start part.now)) }
{
    match part.open() {
        Opened::Tree(shape, parts) => {
            let start = walk_back_all(found, sort, end, parts)?;
            if is_listed(sort, shape) {
                found.push(Span {
                    offset: start,
                    length: end - start,
                    tree: part.share()?,
                })?;
            }
            Ok(start)
        }
        Opened::Leaf(text) => Ok(end - leaf_characters(text)),
        _ => Ok(end),
    }
}

#[cycle(walk)]
fn walk_back_all(
    found: &mut Vec<Span>,
    sort: &str,
    end: u32,
    parts: &[Value],
) -> Result<u32, AllocError>
    requires { all_characters (plains_of parts.now) ≤ end }
    ensures start { IfOk result (λ start. start + all_characters (plains_of parts.now) ≡ end) }
    ensures found { IfOk result (λ start. found.new.items ≡ found.old.items ++ reverse (walk_all sort.now start (plains_of parts.now))) }
{
    let mut start = end;
    let mut left = parts.len();
    while left > 0 {
        left -= 1;
        start = walk_back(found, sort, start, &parts[left])?;
    }
    Ok(start)
}

fn is_listed(sort: &str, shape: &Shape) -> bool
    ensures { result ≡ is_listed sort.now (shape_of shape.now) }
{
    has_sort(shape.role) && shape.sort.as_str() == sort
}

fn has_sort(role: Role) -> bool
    ensures { result ≡ has_sort role }
{
    match role {
        Role::Rep | Role::Opt => false,
        Role::Syntax | Role::Lexical | Role::Layout | Role::Keyword => true,
    }
}
