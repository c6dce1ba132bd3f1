//! Values, read from words.
use crate::no_case::NoCase;
use rl_value::{
    BuildEnd, Role, Scheme, Shape, Value, int, leaf, list, location, map, node, set, text, tree,
    truth, tuple,
};
use std::alloc::Global;
use std::rc::RcStr;

/// The values that these words spell, each before its parts. They are read from the right, so that the parts of a value lie
/// on top when its word comes.
pub fn read_values(alloc: Global, words: &str) -> Result<Vec<Value>, NoCase> {
    let mut pile = Vec::new(alloc);
    for word in words.rsplit(' ') {
        let value = read_value(alloc, &mut pile, word)?;
        pile.push(value)?;
    }
    pile.reverse();
    Ok(pile)
}

fn read_value(alloc: Global, pile: &mut Vec<Value>, word: &str) -> Result<Value, NoCase> {
    match word.split_once(':') {
        None => read_plain(word),
        Some((form, rest)) => read_formed(alloc, pile, form, rest),
    }
}

// A truth or a number.
fn read_plain(word: &str) -> Result<Value, NoCase> {
    match word {
        "true" => Ok(truth(true)),
        "false" => Ok(truth(false)),
        _ => match word.parse::<i128>() {
            Ok(number) => Ok(int(number)),
            Err(_) => Err(NoCase),
        },
    }
}

// A value that is written by its form and a text, or by its form and a number. A tree has no parts, and the text for its
// label; a place in `at` has the span 3, 4.
fn read_formed(
    alloc: Global,
    pile: &mut Vec<Value>,
    form: &str,
    rest: &str,
) -> Result<Value, NoCase> {
    match form {
        "text" => Ok(text(alloc, rest)?),
        "leaf" => Ok(leaf(alloc, rest)?),
        "cwd" => Ok(location(alloc, Scheme::Cwd, rest, None)?),
        "unknown" => Ok(location(alloc, Scheme::Unknown, rest, None)?),
        "at" => Ok(location(alloc, Scheme::Cwd, rest, Some((3, 4)))?),
        "tree" => Ok(labelled(alloc, rest)?),
        _ => match rest.parse::<u32>() {
            Ok(count) => read_counted(alloc, pile, form, count),
            Err(_) => Err(NoCase),
        },
    }
}

fn labelled(alloc: Global, label: &str) -> Result<Value, BuildEnd> {
    let shape = Shape {
        role: Role::Syntax,
        sort: RcStr::from_str(alloc, "E")?,
        label: RcStr::from_str(alloc, label)?,
        rule: 0,
    };
    tree(alloc, shape, Vec::new(alloc))
}

// A value that is written by a form and a number: that of its parts, but for `long`, `deep` and `upto`, which are a text of
// that length, a list of that height and the set of the numbers below.
fn read_counted(
    alloc: Global,
    pile: &mut Vec<Value>,
    form: &str,
    count: u32,
) -> Result<Value, NoCase> {
    match form {
        "long" => long(alloc, count),
        "deep" => deep(alloc, count),
        "upto" => upto(alloc, count),
        "map" => Ok(map(alloc, entries(alloc, pile, count)?)?),
        _ => {
            let parts = parts(alloc, pile, count)?;
            made(alloc, form, parts)
        }
    }
}

fn made(alloc: Global, form: &str, parts: Vec<Value>) -> Result<Value, NoCase> {
    match form {
        "tuple" => Ok(tuple(alloc, parts)?),
        "list" => Ok(list(alloc, parts)?),
        "set" => Ok(set(alloc, parts)?),
        "node" => Ok(node(alloc, "f", parts)?),
        _ => Err(NoCase),
    }
}

fn part(pile: &mut Vec<Value>) -> Result<Value, NoCase> {
    pile.pop().ok_or(NoCase)
}

fn parts(alloc: Global, pile: &mut Vec<Value>, count: u32) -> Result<Vec<Value>, NoCase> {
    let mut parts = Vec::new(alloc);
    for _ in 0..count {
        parts.push(part(pile)?)?;
    }
    Ok(parts)
}

fn entries(
    alloc: Global,
    pile: &mut Vec<Value>,
    count: u32,
) -> Result<Vec<(Value, Value)>, NoCase> {
    let mut entries = Vec::new(alloc);
    for _ in 0..count {
        let key = part(pile)?;
        let value = part(pile)?;
        entries.push((key, value))?;
    }
    Ok(entries)
}

fn long(alloc: Global, count: u32) -> Result<Value, NoCase> {
    let mut letters = String::new(alloc);
    for _ in 0..count {
        letters.push('a')?;
    }
    Ok(text(alloc, letters.as_str())?)
}

fn deep(alloc: Global, height: u32) -> Result<Value, NoCase> {
    let mut deep = list(alloc, Vec::new(alloc))?;
    for _ in 1..height {
        let mut items = Vec::new(alloc);
        items.push(deep)?;
        deep = list(alloc, items)?;
    }
    Ok(deep)
}

fn upto(alloc: Global, count: u32) -> Result<Value, NoCase> {
    let mut numbers = Vec::new(alloc);
    for number in 0..count {
        numbers.push(int(i128::from(number)))?;
    }
    Ok(set(alloc, numbers)?)
}
