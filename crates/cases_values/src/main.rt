//! Builds a value of every kind, and prints what its readers tell.
#![tactic(auto)]

use rl_value::{
    BuildEnd, Kind, Role, Scheme, Shape, Value, int, leaf, list, location, map, node, set, text,
    tree, truth, tuple,
};
use std::alloc::Global;
use std::io;
use std::rc::RcStr;

// A syntax tree, where each part can be one.
fn tree_of(alloc: Global, shape: Shape, parts: Vec<Value>) -> Result<Value, BuildEnd> {
    for part in &parts {
        if !part.is_part() {
            return Err(BuildEnd::TooLarge);
        }
    }
    tree(alloc, shape, parts)
}

fn numbers(alloc: Global, numbers: &[i128]) -> Result<Vec<Value>, BuildEnd> {
    let mut values = Vec::new(alloc);
    for number in numbers {
        values.push(int(*number))?;
    }
    Ok(values)
}

fn pairs(alloc: Global) -> Result<Vec<(Value, Value)>, BuildEnd> {
    let mut pairs = Vec::new(alloc);
    for (key, value) in [(2, 20), (1, 10), (2, 21)] {
        pairs.push((int(key), int(value)))?;
    }
    Ok(pairs)
}

fn word(alloc: Global, role: Role, sort: &str, characters: &str) -> Result<Value, BuildEnd> {
    let shape = Shape {
        role,
        sort: RcStr::from_str(alloc, sort)?,
        label: RcStr::from_str(alloc, "")?,
        rule: 7,
    };
    let mut parts = Vec::new(alloc);
    parts.push(leaf(alloc, characters)?)?;
    tree_of(alloc, shape, parts)
}

fn sum(alloc: Global) -> Result<Value, BuildEnd> {
    let shape = Shape {
        role: Role::Syntax,
        sort: RcStr::from_str(alloc, "E")?,
        label: RcStr::from_str(alloc, "add")?,
        rule: 3,
    };
    let mut parts = Vec::new(alloc);
    parts.push(word(alloc, Role::Lexical, "N", "1")?)?;
    parts.push(word(alloc, Role::Layout, "W", " ")?)?;
    parts.push(leaf(alloc, "+")?)?;
    parts.push(word(alloc, Role::Lexical, "N", "2")?)?;
    tree_of(alloc, shape, parts)
}

fn plain(alloc: Global, values: &mut Vec<Value>) -> Result<(), BuildEnd> {
    values.push(truth(true))?;
    values.push(int(-5))?;
    values.push(text(alloc, "a\"b")?)?;
    values.push(location(alloc, Scheme::Cwd, "p/q", Some((3, 4)))?)?;
    values.push(location(alloc, Scheme::Unknown, "", None)?)?;
    values.push(leaf(alloc, "x")?)?;
    Ok(())
}

fn collections(alloc: Global, values: &mut Vec<Value>) -> Result<(), BuildEnd> {
    values.push(tuple(alloc, numbers(alloc, &[])?)?)?;
    values.push(tuple(alloc, numbers(alloc, &[3, 1])?)?)?;
    values.push(list(alloc, numbers(alloc, &[3, 1, 3])?)?)?;
    values.push(set(alloc, numbers(alloc, &[3, 1, 3])?)?)?;
    values.push(map(alloc, pairs(alloc)?)?)?;
    values.push(node(alloc, "f", numbers(alloc, &[3, 1])?)?)?;
    values.push(sum(alloc)?)?;
    Ok(())
}

fn show_plain<R: Print>(rt: &R, value: &Value) -> io::Result<()> {
    match value.kind() {
        Kind::Bool => print!(rt; "{:?}", value.as_bool()),
        Kind::Int => print!(rt; "{:?}", value.as_int()),
        Kind::Location => print!(rt;
            "{:?} {:?} {:?}",
            value.scheme(),
            value.path(),
            value.span()
        ),
        _ => print!(rt; "{:?}", value.as_text()),
    }
}

// What a value tells of itself, and of the values in it down to a depth.
fn show<R: Print>(rt: &R, value: &Value, depth: u32) -> io::Result<()> {
    print!(rt; "{:?} {:?}[", value.kind(), value.name())?;
    if value.part_count() > 0 && depth > 0 {
        for i in 0..value.part_count() {
            show(rt, value.part(i), depth - 1)?;
        }
    } else if value.child_count() > 0 && depth > 0 {
        for i in 0..value.child_count() {
            show(rt, value.child(i), depth - 1)?;
        }
    } else {
        show_plain(rt, value)?;
    }
    print!(rt; "]")
}

fn show_shape<R: Print>(rt: &R, value: &Value) -> io::Result<()> {
    match value.shape() {
        None => Ok(()),
        Some(shape) => print!(rt;
            " {:?} {} {} {}",
            shape.role, shape.sort, shape.label, shape.rule
        ),
    }
}

fn main(rt: HostRuntime) -> io::Result<()> {
    let mut values = Vec::new(rt.alloc());
    if plain(rt.alloc(), &mut values).is_err() || collections(rt.alloc(), &mut values).is_err() {
        return println!(rt; "not built");
    }
    for value in &values {
        show(&rt, value, 3)?;
        show_shape(&rt, value)?;
        println!(rt;
            " size {} height {} kids {}",
            value.size(),
            value.height(),
            value.child_count()
        )?;
    }
    Ok(())
}
