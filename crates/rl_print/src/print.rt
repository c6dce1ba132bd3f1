//! The text of every value.
ghost use Rattle.std.specs.Prelude.{◌≡◌, ◌++◌, ◌⊎◌, OnOk, IfOk};
ghost use Rattle.std.specs.String.{string_bytes};
ghost use Rattle.rl_value.specs.Plain.{plains_of, pairs_of};
ghost use Rattle.rl_value.specs.Kids.{kids, in_pairs};
ghost use Rattle.rl_value.specs.Readers.{kind_of};
ghost use Rattle.rl_value.specs.declared.kind.Kind.TheVariants as k;
ghost use Rattle.rl_print.specs.Printed.{printed_of, shown_of, printed_all, printed_entries, comma_before, sort_mark};

use crate::atoms::{push_int, push_location, push_quoted, push_text, push_truth};
use crate::escape::Escapes;
use crate::leaves::push_leaves;
use rl_value::{Kind, Value};
use std::alloc::{AllocError, Global};

/// The text by which a value is printed.
pub fn printed(alloc: Global, v: &Value) -> Result<Vec<u8>, AllocError>
    ensures { IfOk result (λ bytes. bytes.items ≡ printed_of v.now) }
{
    let mut out = String::new(alloc);
    push_printed(&mut out, v)?;
    Ok(out.into_bytes())
}

/// The text by which a value is shown: a text and a syntax tree are their own text, and all else is as
/// printed.
pub fn shown(alloc: Global, v: &Value) -> Result<Vec<u8>, AllocError>
    ensures { IfOk result (λ bytes. bytes.items ≡ shown_of v.now) }
{
    let mut out = String::new(alloc);
    append_shown(&mut out, v)?;
    Ok(out.into_bytes())
}

/// Appends the text by which a value is shown.
pub fn append_shown(out: &mut String, v: &Value) -> Result<(), AllocError>
    ensures { OnOk result (string_bytes out.new ≡ string_bytes out.old ++ shown_of v.now) }
{
    match v.kind() {
        Kind::Text => push_text(out, v),
        Kind::Tree => show_tree(out, v),
        _ => print_other(out, v),
    }
}

fn show_tree(out: &mut String, tree: &Value) -> Result<(), AllocError>
    requires { kind_of tree.now ≡ k.Tree }
    ensures { OnOk result (string_bytes out.new ≡ string_bytes out.old ++ shown_of tree.now) }
{
    push_leaves(out, Escapes::Raw, tree)
}

// Appends a value that is neither a text nor a tree as it is printed.
fn print_other(out: &mut String, v: &Value) -> Result<(), AllocError>
    requires text { ¬ (kind_of v.now ≡ k.Text) }
    requires tree { ¬ (kind_of v.now ≡ k.Tree) }
    ensures { OnOk result (string_bytes out.new ≡ string_bytes out.old ++ shown_of v.now) }
{
    push_printed(out, v)
}

#[cycle(print)]
fn push_printed(out: &mut String, value: &Value) -> Result<(), AllocError>
    ensures { OnOk result (string_bytes out.new ≡ string_bytes out.old ++ printed_of value.now) }
{
    match value.kind() {
        Kind::Bool => push_truth(out, value),
        Kind::Int => push_int(out, value),
        Kind::Text => push_quoted(out, value),
        Kind::Location => push_location(out, value),
        Kind::Tuple => push_between(out, "<", value, ">"),
        Kind::List => push_between(out, "[", value, "]"),
        Kind::Set => push_between(out, "{", value, "}"),
        Kind::Map => push_map(out, value),
        Kind::Node => push_node(out, value),
        Kind::Tree => push_tree(out, value),
        Kind::Leaf => push_leaves(out, Escapes::Raw, value),
    }
}

// Appends the values inside one with a comma between two, and what opens and closes them.
#[cycle(print)]
fn push_between(
    out: &mut String,
    opening: &str,
    value: &Value,
    closing: &str,
) -> Result<(), AllocError>
    ensures { OnOk result (string_bytes out.new ≡ string_bytes out.old ++ opening.now ++ printed_all (plains_of (kids value.now)) ++ closing.now) }
{
    out.push_str(opening)?;
    push_all(out, value)?;
    out.push_str(closing)
}

#[cycle(print)]
fn push_node(out: &mut String, value: &Value) -> Result<(), AllocError>
    requires { kind_of value.now ≡ k.Node }
    ensures { OnOk result (string_bytes out.new ≡ string_bytes out.old ++ printed_of value.now) }
{
    match value.name() {
        Some(name) => {
            out.push_str(name)?;
            push_between(out, "(", value, ")")
        }
        None => Ok(()),
    }
}

// Appends the values inside one with a comma between two.
#[cycle(print)]
fn push_all(out: &mut String, value: &Value) -> Result<(), AllocError>
    ensures { OnOk result (string_bytes out.new ≡ string_bytes out.old ++ printed_all (plains_of (kids value.now))) }
{
    for i in 0..value.child_count() {
        push_comma(out, i)?;
        push_printed(out, value.child(i))?;
    }
    Ok(())
}

#[cycle(print)]
fn push_map(out: &mut String, value: &Value) -> Result<(), AllocError>
    requires { kind_of value.now ≡ k.Map }
    ensures { OnOk result (string_bytes out.new ≡ string_bytes out.old ++ printed_of value.now) }
{
    out.push_str("(")?;
    push_entries(out, value)?;
    out.push_str(")")
}

// Appends the entries of a map with a comma between two.
#[cycle(print)]
fn push_entries(out: &mut String, map: &Value) -> Result<(), AllocError>
    requires { kind_of map.now ≡ k.Map }
    ensures { OnOk result (string_bytes out.new ≡ string_bytes out.old ++ printed_entries (pairs_of (in_pairs (kids map.now)))) }
{
    for i in 0..map.child_count() / 2 {
        push_comma(out, i)?;
        push_printed(out, map.child(2 * i))?;
        out.push_str(":")?;
        push_printed(out, map.child(2 * i + 1))?;
    }
    Ok(())
}

// Appends a comma, unless what follows is the first.
fn push_comma(out: &mut String, place: u32) -> Result<(), AllocError>
    ensures { OnOk result (string_bytes out.new ≡ string_bytes out.old ++ comma_before place) }
{
    if place == 0 {
        Ok(())
    } else {
        out.push_str(",")
    }
}

fn push_tree(out: &mut String, tree: &Value) -> Result<(), AllocError>
    requires { kind_of tree.now ≡ k.Tree }
    ensures { OnOk result (string_bytes out.new ≡ string_bytes out.old ++ printed_of tree.now) }
{
    push_sort(out, tree)?;
    out.push_str("`")?;
    push_leaves(out, Escapes::Backquoted, tree)?;
    out.push_str("`")
}

fn push_sort(out: &mut String, tree: &Value) -> Result<(), AllocError>
    requires { kind_of tree.now ≡ k.Tree }
    ensures { OnOk result (string_bytes out.new ≡ string_bytes out.old ++ sort_mark tree.now) }
{
    match tree.shape() {
        Some(shape) => write!(out, "({}) ", shape.sort),
        None => Ok(()),
    }
}
