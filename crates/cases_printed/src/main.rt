//! Prints values of every kind, one on a line: as printed, and then as shown.
#![tactic(auto)]

use rl_print::{append_shown, printed, shown};
use rl_value::{
    BuildEnd, Role, Scheme, Shape, Value, int, leaf, list, location, map, node, set, text, tree,
    truth, tuple,
};
use std::alloc::{AllocError, Global};
use std::rc::RcStr;
use std::{io, str};

// A syntax tree, where each part can be one.
fn tree_of(alloc: Global, role: Role, sort: &str, parts: Vec<Value>) -> Result<Value, BuildEnd> {
    for part in &parts {
        if !part.is_part() {
            return Err(BuildEnd::TooLarge);
        }
    }
    let shape = Shape {
        role,
        sort: RcStr::from_str(alloc, sort)?,
        label: RcStr::from_str(alloc, "label")?,
        rule: 7,
    };
    tree(alloc, shape, parts)
}

fn word(alloc: Global, role: Role, sort: &str, characters: &str) -> Result<Value, BuildEnd> {
    let mut parts = Vec::new(alloc);
    parts.push(leaf(alloc, characters)?)?;
    tree_of(alloc, role, sort, parts)
}

// The tree of `1 + 2`, and a repetition of it.
fn sum(alloc: Global) -> Result<Value, BuildEnd> {
    let mut parts = Vec::new(alloc);
    parts.push(word(alloc, Role::Lexical, "N", "1")?)?;
    parts.push(word(alloc, Role::Layout, "W", " ")?)?;
    parts.push(leaf(alloc, "+")?)?;
    parts.push(word(alloc, Role::Layout, "W", " ")?)?;
    parts.push(word(alloc, Role::Lexical, "N", "2")?)?;
    tree_of(alloc, Role::Syntax, "E", parts)
}

fn repeated(alloc: Global) -> Result<Value, BuildEnd> {
    let mut parts = Vec::new(alloc);
    parts.push(sum(alloc)?)?;
    parts.push(leaf(alloc, ",")?)?;
    parts.push(sum(alloc)?)?;
    tree_of(alloc, Role::Rep, "", parts)
}

fn numbers(values: &mut Vec<Value>) -> Result<(), AllocError> {
    values.push(truth(true))?;
    values.push(truth(false))?;
    values.push(int(0))?;
    values.push(int(-12))?;
    values.push(int(i128::MAX))?;
    values.push(int(i128::MIN))?;
    Ok(())
}

fn texts(alloc: Global, values: &mut Vec<Value>) -> Result<(), BuildEnd> {
    values.push(text(alloc, "")?)?;
    values.push(text(alloc, "it's `a`")?)?;
    values.push(text(alloc, "\"q\" \\ <i>")?)?;
    values.push(text(alloc, "a\tb\rc\u{8}d")?)?;
    values.push(text(alloc, "é€😀")?)?;
    values.push(leaf(alloc, "\"<leaf>`\\")?)?;
    Ok(())
}

fn locations(alloc: Global, values: &mut Vec<Value>) -> Result<(), BuildEnd> {
    values.push(location(alloc, Scheme::Cwd, "", None)?)?;
    values.push(location(alloc, Scheme::Cwd, "d/f.rsc", Some((3, 40)))?)?;
    values.push(location(alloc, Scheme::Unknown, "", Some((0, 0)))?)?;
    values.push(location(alloc, Scheme::Unknown, "p", None)?)?;
    Ok(())
}

fn trees(alloc: Global, values: &mut Vec<Value>) -> Result<(), BuildEnd> {
    values.push(sum(alloc)?)?;
    values.push(word(alloc, Role::Lexical, "W", "`a` \\ <b> \"c\"")?)?;
    values.push(repeated(alloc)?)?;
    values.push(tree_of(alloc, Role::Opt, "", Vec::new(alloc))?)?;
    Ok(())
}

// Two of the values in a list.
fn two(alloc: Global, values: &[Value], i: usize, j: usize) -> Result<Vec<Value>, AllocError> {
    let mut pair = Vec::new(alloc);
    if let (Some(first), Some(second)) = (values.get(i), values.get(j)) {
        pair.push(first.share()?)?;
        pair.push(second.share()?)?;
    }
    Ok(pair)
}

fn entries(alloc: Global) -> Result<Vec<(Value, Value)>, BuildEnd> {
    let mut pairs = Vec::new(alloc);
    pairs.push((text(alloc, "k")?, int(2)))?;
    pairs.push((int(1), text(alloc, "<v>")?))?;
    pairs.push((
        tuple(alloc, Vec::new(alloc))?,
        list(alloc, Vec::new(alloc))?,
    ))?;
    Ok(pairs)
}

fn collections(alloc: Global, values: &mut Vec<Value>) -> Result<(), BuildEnd> {
    let text_and_number = two(alloc, values, 8, 3)?;
    values.push(tuple(alloc, text_and_number)?)?;
    let tree_and_number = two(alloc, values, 17, 3)?;
    values.push(list(alloc, tree_and_number)?)?;
    let number_and_truth = two(alloc, values, 3, 0)?;
    values.push(set(alloc, number_and_truth)?)?;
    values.push(map(alloc, entries(alloc)?)?)?;
    let nested = two(alloc, values, 20, 21)?;
    values.push(node(alloc, "f", nested)?)?;
    Ok(())
}

fn empties(alloc: Global, values: &mut Vec<Value>) -> Result<(), BuildEnd> {
    values.push(tuple(alloc, Vec::new(alloc))?)?;
    values.push(list(alloc, Vec::new(alloc))?)?;
    values.push(set(alloc, Vec::new(alloc))?)?;
    values.push(map(alloc, Vec::new(alloc))?)?;
    values.push(node(alloc, "nil", Vec::new(alloc))?)?;
    Ok(())
}

fn every_kind(alloc: Global) -> Result<Vec<Value>, BuildEnd> {
    let mut values = Vec::new(alloc);
    numbers(&mut values)?;
    texts(alloc, &mut values)?;
    locations(alloc, &mut values)?;
    trees(alloc, &mut values)?;
    collections(alloc, &mut values)?;
    empties(alloc, &mut values)?;
    Ok(values)
}

fn put<R: Print>(rt: &R, bytes: &[u8]) -> io::Result<()> {
    match str::from_utf8(bytes) {
        Ok(text) => println!(rt; "{text}"),
        Err(_) => println!(rt; "not UTF-8"),
    }
}

fn put_both<R: Print>(rt: &R, alloc: Global, value: &Value) -> io::Result<()> {
    match (printed(alloc, value), shown(alloc, value)) {
        (Ok(exact), Ok(plain)) => {
            put(rt, &exact)?;
            put(rt, &plain)
        }
        _ => println!(rt; "out of memory"),
    }
}

// Two values one behind the other in one text.
fn joined(alloc: Global) -> Result<String, BuildEnd> {
    let mut out = String::from_str(alloc, "sum: ")?;
    append_shown(&mut out, &sum(alloc)?)?;
    append_shown(&mut out, &int(3))?;
    Ok(out)
}

fn main(rt: HostRuntime) -> io::Result<()> {
    let Ok(values) = every_kind(rt.alloc()) else {
        return println!(rt; "not built");
    };
    for value in &values {
        put_both(&rt, rt.alloc(), value)?;
    }
    match joined(rt.alloc()) {
        Ok(text) => println!(rt; "{text}"),
        Err(_) => println!(rt; "not built"),
    }
}
