//! How many characters the text of a syntax tree has.

ghost use Rattle.std.specs.Prelude.{◌≡◌, ◌≤◌, ◌^◌, length};
ghost use Rattle.std.specs.Str.{chars};
ghost use Rattle.rl_value.specs.Plain.{plain_size, plains_size, plains_of};
ghost use Rattle.rl_trees.specs.Counts.{characters, all_characters};

use rl_value::{Opened, Value};

/// How many characters the text of a part of a syntax tree has.
#[cycle(count)]
pub(crate) fn characters(part: &Value) -> u32
    ensures count { result ≡ characters part.now }
    ensures bound { result ≤ plain_size part.now }
{
    match part.open() {
        Opened::Tree(_, parts) => all_characters(parts),
        Opened::Leaf(text) => leaf_characters(text),
        _ => 0,
    }
}

#[cycle(count)]
fn all_characters(parts: &[Value]) -> u32
    requires { plains_size (plains_of parts.now) ≤ 2 ^ 24 }
    ensures count { result ≡ all_characters (plains_of parts.now) }
    ensures bound { result ≤ plains_size (plains_of parts.now) }
{
    let mut count = 0;
    for part in parts {
        count += characters(part);
    }
    count
}

pub(crate) fn leaf_characters(text: &str) -> u32
    requires { length text.now ≤ 2 ^ 24 }
    ensures count { result ≡ length (chars text.now) }
    ensures bound { result ≤ length text.now }
{
    text.chars().count() as u32
}
