//! Values of every kind.

use crate::*;
use std::alloc::Global;
use std::rc::RcStr;
use std::test::Fail;

fn shape(alloc: Global, role: Role, sort: &str) -> Result<Shape, BuildEnd> {
    Ok(Shape {
        role,
        sort: RcStr::from_str(alloc, sort)?,
        label: RcStr::from_str(alloc, "")?,
        rule: 0,
    })
}

// A tree, where each part can be one.
fn tree_of(alloc: Global, shape: Shape, parts: Vec<Value>) -> Result<Value, BuildEnd> {
    for part in &parts {
        if !part.is_part() {
            return Err(BuildEnd::TooLarge);
        }
    }
    tree(alloc, shape, parts)
}

// A value with other children, where they can be its.
fn renewed(alloc: Global, value: &Value, kids: Vec<Value>) -> Result<Value, BuildEnd> {
    if kids.len() != value.child_count() as usize {
        return Err(BuildEnd::TooLarge);
    }
    for kid in &kids {
        if !kid.is_tree() {
            return Err(BuildEnd::TooLarge);
        }
    }
    value.with_children(alloc, kids)
}

fn word(alloc: Global, role: Role, sort: &str, text: &str) -> Result<Value, BuildEnd> {
    let mut parts = Vec::new(alloc);
    parts.push(leaf(alloc, text)?)?;
    tree_of(alloc, shape(alloc, role, sort)?, parts)
}

fn ints(alloc: Global, numbers: &[i128]) -> Result<Vec<Value>, BuildEnd> {
    let mut values = Vec::new(alloc);
    for n in numbers {
        values.push(int(*n))?;
    }
    Ok(values)
}

// The tree of `a , b`, a list of words with layout and a separator between them.
fn list_of_words(alloc: Global, first: &str, second: &str) -> Result<Value, BuildEnd> {
    let mut items = Vec::new(alloc);
    items.push(word(alloc, Role::Lexical, "W", first)?)?;
    items.push(word(alloc, Role::Layout, "L", " ")?)?;
    items.push(leaf(alloc, ",")?)?;
    items.push(word(alloc, Role::Layout, "L", " ")?)?;
    items.push(word(alloc, Role::Lexical, "W", second)?)?;
    let items = tree_of(alloc, shape(alloc, Role::Rep, "")?, items)?;
    let mut parts = Vec::new(alloc);
    parts.push(items)?;
    tree_of(alloc, shape(alloc, Role::Syntax, "S")?, parts)
}

fn few_pairs(alloc: Global) -> Result<Vec<(Value, Value)>, BuildEnd> {
    let mut pairs = Vec::new(alloc);
    pairs.push((int(2), int(20)))?;
    pairs.push((int(1), int(10)))?;
    Ok(pairs)
}

// One value of each kind, in the order of kinds.
fn one_of_each(alloc: Global) -> Result<Vec<Value>, BuildEnd> {
    let mut values = Vec::new(alloc);
    values.push(truth(true))?;
    values.push(int(-7))?;
    values.push(text(alloc, "abc")?)?;
    values.push(location(alloc, Scheme::Cwd, "d/f", Some((3, 4)))?)?;
    values.push(tuple(alloc, Vec::new(alloc))?)?;
    more(alloc, &mut values)?;
    Ok(values)
}

fn more(alloc: Global, values: &mut Vec<Value>) -> Result<(), BuildEnd> {
    values.push(list(alloc, ints(alloc, &[2, 1])?)?)?;
    values.push(set(alloc, ints(alloc, &[3, 1, 2, 3])?)?)?;
    values.push(map(alloc, few_pairs(alloc)?)?)?;
    values.push(node(alloc, "f", ints(alloc, &[5])?)?)?;
    values.push(list_of_words(alloc, "x", "y")?)?;
    values.push(leaf(alloc, "+")?)?;
    Ok(())
}

#[test]
fn builds_one_of_each(rt: HostRuntime) -> Result<(), Fail> {
    let values = one_of_each(rt.alloc())?;
    let wanted = [
        (Kind::Bool, 1, 1, 0),
        (Kind::Int, 1, 1, 0),
        (Kind::Text, 4, 1, 0),
        (Kind::Location, 4, 1, 0),
        (Kind::Tuple, 1, 1, 0),
        (Kind::List, 3, 2, 2),
        (Kind::Set, 4, 2, 3),
        (Kind::Map, 5, 2, 4),
        (Kind::Node, 2, 2, 1),
        (Kind::Tree, 16, 4, 2),
        (Kind::Leaf, 2, 1, 0),
    ];
    assert_eq!(rt; values.len(), wanted.len());
    for (value, (kind, size, height, count)) in values.iter().zip(wanted) {
        assert_eq!(rt; value.kind(), kind);
        assert_eq!(rt;
            (value.size(), value.height(), value.child_count()),
            (size, height, count)
        );
        assert!(rt; value.share()? == *value);
    }
    Ok(())
}

#[test]
fn orders_values(rt: HostRuntime) -> Result<(), Fail> {
    let values = one_of_each(rt.alloc())?;
    for pair in values.as_slice().windows(2) {
        assert_eq!(rt; pair.len(), 2);
        assert!(rt; pair[0] < pair[1]);
    }
    Ok(())
}

#[test]
fn lets_the_later_key_win(rt: HostRuntime) -> Result<(), Fail> {
    let alloc = rt.alloc();
    let mut pairs = Vec::new(alloc);
    for (key, value) in [(2, 20), (1, 10), (2, 21)] {
        pairs.push((int(key), int(value)))?;
    }
    let made = map(alloc, pairs)?;
    assert_eq!(rt; made.child_count(), 4);
    assert_eq!(rt; made.child(3).as_int(), Some(21));
    Ok(())
}

#[test]
fn renews_a_tree(rt: HostRuntime) -> Result<(), Fail> {
    let alloc = rt.alloc();
    let old = list_of_words(alloc, "x", "y")?;
    let mut kids = Vec::new(alloc);
    kids.push(word(alloc, Role::Lexical, "W", "b")?)?;
    kids.push(word(alloc, Role::Lexical, "W", "cc")?)?;
    let new = renewed(alloc, &old, kids)?;
    assert!(rt; new == list_of_words(alloc, "b", "cc")?);
    Ok(())
}

// A list at the limit can be compared and let go, and one above it is refused.
#[test]
fn keeps_to_the_height(rt: HostRuntime) -> Result<(), Fail> {
    let alloc = rt.alloc();
    let mut high = list(alloc, Vec::new(alloc))?;
    for _ in 1..MAX_HEIGHT {
        let mut inside = Vec::new(alloc);
        inside.push(high)?;
        high = list(alloc, inside)?;
    }
    assert!(rt; high.share()? == high);
    let mut inside = Vec::new(alloc);
    inside.push(high)?;
    assert!(rt; matches!(list(alloc, inside), Err(BuildEnd::TooLarge)));
    Ok(())
}

// A tree at the limit, with a leaf of this sort in its innermost tree.
fn high_tree(alloc: Global, sort: &str) -> Result<Value, BuildEnd> {
    let mut high = word(alloc, Role::Lexical, sort, "x")?;
    for _ in 2..MAX_HEIGHT {
        let mut inside = Vec::new(alloc);
        inside.push(high)?;
        high = tree_of(alloc, shape(alloc, Role::Syntax, "S")?, inside)?;
    }
    Ok(high)
}

// Trees at the limit that have one text, and differ in the innermost, are compared.
#[test]
fn orders_high_trees(rt: HostRuntime) -> Result<(), Fail> {
    let a = high_tree(rt.alloc(), "A")?;
    let b = high_tree(rt.alloc(), "B")?;
    assert_eq!(rt; a.height(), MAX_HEIGHT);
    assert!(rt; a < b);
    Ok(())
}

#[test]
fn sorts_many_elements(rt: HostRuntime) -> Result<(), Fail> {
    let alloc = rt.alloc();
    let mut elements = Vec::new(alloc);
    for n in 0..1u32 << 20 {
        elements.push(int((n ^ 0x5_5555) as i128))?;
    }
    let made = set(alloc, elements)?;
    assert_eq!(rt; made.child_count(), 1 << 20);
    assert_eq!(rt; made.child(5).as_int(), Some(5));
    Ok(())
}
