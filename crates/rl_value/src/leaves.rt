//! The bytes of a syntax tree's text, in order and without memory.
ghost use Rattle.std.specs.Prelude.{◌≡◌, ◌≤◌, ◌<◌, ◌+◌, ◌-◌, ◌++◌, ◌∷◌, [], length, take, IfNone, option_to_list};
ghost use Rattle.std.specs.Ordering.{nat_cmp};
ghost use Rattle.rl_value.specs.Order.{bytes_cmp};
ghost use Rattle.rl_value.specs.Levels.{levels_text, LeavesRoom, levels_weight};
ghost use Rattle.rl_value.specs.Plain.{plains_of, plains_text, plains_height};

use crate::build::MAX_HEIGHT;
use crate::value::Value;
use std::cmp::Ordering;

// A place in the text of a syntax tree.
#[derive(Drop)]
struct Leaves<'a> {
    /// The bytes of the current leaf that are still to come.
    leaf: &'a [u8],
    /// At each level on the way down to it, the parts that are still to come.
    levels: [&'a [Value]; 2000],
    depth: usize,
}

// The parts to come at the lowest level.
fn lowest<'a>(at: &Leaves<'a>) -> &'a [Value]
    requires some { 0 < at.now.depth }
    requires full { at.now.depth ≤ 2000 }
    ensures { take at.now.depth at.now.levels ≡ take (at.now.depth - 1) at.now.levels ++ result ∷ [] }
{
    let levels = &at.levels[..];
    let parts = levels[at.depth - 1];
    parts
}

// Goes one step down or up to the next leaf.
fn advance<'a>(at: &mut Leaves<'a>, parts: &'a [Value])
    requires some { 0 < at.old.depth }
    requires full { at.old.depth ≤ 2000 }
    requires lowest { take at.old.depth at.old.levels ≡ take (at.old.depth - 1) at.old.levels ++ parts ∷ [] }
    requires room { LeavesRoom 0 (take at.old.depth at.old.levels) }
    requires passed { at.old.leaf.now ≡ [] }
    ensures full { at.new.depth ≤ 2000 }
    ensures room { LeavesRoom 0 (take at.new.depth at.new.levels) }
    ensures text { at.new.leaf.now ++ levels_text (take at.new.depth at.new.levels) ≡ levels_text (take at.old.depth at.old.levels) }
    ensures weight { levels_weight (take at.new.depth at.new.levels) < levels_weight (take at.old.depth at.old.levels) }
{
    let top = at.depth - 1;
    let levels = &mut at.levels[..];
    match parts.split_first() {
        None => at.depth = top,
        Some((part, others)) => {
            levels[top] = others;
            levels[top + 1] = part.parts();
            at.leaf = part.leaf_bytes();
            at.depth += 1;
        }
    }
}

// The next byte, unless the text is at its end.
fn next_byte(at: &mut Leaves) -> Option<u8>
    requires full { at.old.depth ≤ 2000 }
    requires room { LeavesRoom 0 (take at.old.depth at.old.levels) }
    ensures full { at.new.depth ≤ 2000 }
    ensures room { LeavesRoom 0 (take at.new.depth at.new.levels) }
    ensures text { at.old.leaf.now ++ levels_text (take at.old.depth at.old.levels)
        ≡ option_to_list result ++ (at.new.leaf.now ++ levels_text (take at.new.depth at.new.levels)) }
    ensures end { IfNone result (at.new.leaf.now ++ levels_text (take at.new.depth at.new.levels) ≡ []) }
{
    while at.leaf.is_empty() && at.depth > 0 {
        let parts = lowest(at);
        advance(at, parts);
    }
    first_byte(at)
}

// The next byte of the current leaf.
fn first_byte(at: &mut Leaves) -> Option<u8>
    ensures kept { (at.new.depth ≡ at.old.depth) × (at.new.levels ≡ at.old.levels) }
    ensures text { at.old.leaf.now ≡ option_to_list result ++ at.new.leaf.now }
    ensures end { IfNone result (at.new.leaf.now ≡ []) }
{
    let leaf = at.leaf;
    match leaf.split_first() {
        None => None,
        Some((byte, others)) => {
            at.leaf = others;
            Some(*byte)
        }
    }
}

// The start of the text of these parts.
fn leaves_of<'a>(parts: &'a [Value]) -> Leaves<'a>
    requires { plains_height (plains_of parts.now) < 2000 }
    ensures depth { result.depth ≤ 2000 }
    ensures room { LeavesRoom 0 (take result.depth result.levels) }
    ensures text { result.leaf.now ++ levels_text (take result.depth result.levels) ≡ plains_text (plains_of parts.now) }
{
    Leaves {
        leaf: &[],
        levels: [parts; MAX_HEIGHT as usize],
        depth: 1,
    }
}

/// The order of two texts, each that of these parts. It keeps two places of 2,000 levels on the stack, so it stays out of
/// the recursion that calls it.
#[inline(never)]
pub(crate) fn compare_texts(a: &[Value], b: &[Value]) -> Ordering
    requires a { plains_height (plains_of a.now) < 2000 }
    requires b { plains_height (plains_of b.now) < 2000 }
    ensures { result ≡ bytes_cmp (plains_text (plains_of a.now)) (plains_text (plains_of b.now)) }
{
    let mut x = leaves_of(a);
    let mut y = leaves_of(b);
    loop {
        let m = next_byte(&mut x);
        let n = next_byte(&mut y);
        let found = m.cmp(&n);
        if m.is_none() || found != Ordering::Equal {
            return found;
        }
    }
}
