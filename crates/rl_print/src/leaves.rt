//! The text of a syntax tree.
ghost use Rattle.std.specs.Prelude.{◌≡◌, ◌++◌, OnOk};
ghost use Rattle.std.specs.String.{string_bytes};
ghost use Rattle.rl_value.specs.Plain.{plain_text};
ghost use Rattle.rl_value.specs.Readers.{kind_of};
ghost use Rattle.rl_value.specs.declared.kind.Kind.TheVariants as k;
ghost use Rattle.rl_print.specs.Escape.{escaped};

use crate::escape::{Escapes, push_escaped};
use rl_value::{Kind, Value};
use std::alloc::AllocError;

/// Appends the leaves of a syntax tree with their escapes.
pub(crate) fn push_leaves(
    out: &mut String,
    escapes: Escapes,
    part: &Value,
) -> Result<(), AllocError>
    ensures { OnOk result (string_bytes out.new ≡ string_bytes out.old ++ escaped escapes (plain_text part.now)) }
{
    if part.kind() == Kind::Leaf {
        return push_leaf(out, escapes, part);
    }
    for i in 0..part.part_count() {
        push_leaves(out, escapes, part.part(i))?;
    }
    Ok(())
}

fn push_leaf(out: &mut String, escapes: Escapes, leaf: &Value) -> Result<(), AllocError>
    requires { kind_of leaf.now ≡ k.Leaf }
    ensures { OnOk result (string_bytes out.new ≡ string_bytes out.old ++ escaped escapes (plain_text leaf.now)) }
{
    match leaf.as_text() {
        Some(text) => push_escaped(out, escapes, text),
        None => Ok(()),
    }
}
