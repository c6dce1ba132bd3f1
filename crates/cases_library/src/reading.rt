//! Values in words, each part before what it is a part of:
//!
//! - `T`, `F` and `#-12` are truth values and a number;
//! - `"a\n` is a text, `'a` a leaf, and `|a/b` a place in the current directory;
//! - `[3`, `{3`, `<3` and `(4` make a list, a set, a tuple or a map of the last 3 values, or of the last 4
//!   as keys with their values, and `:3 f` a constructor's value;
//! - `S3 E` makes a syntax tree of sort `E` of the last 3, and `L`, `Y`, `K`, `R` and `O` one of another role;
//! - `*3` makes a list of three times the last value, and `^3` a text of three times the last one.
use rl_value::{
    Role, Scheme, Shape, Value, int, leaf, list, location, map, node, set, text, tree, truth, tuple,
};
use std::alloc::Global;
use std::rc::RcStr;

/// The values that the words make; none where a word makes none.
pub(crate) fn read_values(alloc: Global, words: &str) -> Option<Vec<Value>> {
    let mut values = Vec::new(alloc);
    for word in words.split('\t') {
        let value = read_value(alloc, &mut values, word)?;
        values.push(value).ok()?;
    }
    Some(values)
}

// The value that a word makes, of the last of those before it.
fn read_value(alloc: Global, values: &mut Vec<Value>, word: &str) -> Option<Value> {
    let mut characters = word.chars();
    let mark = characters.next()?;
    let rest = characters.as_str();
    match mark {
        '[' | '{' | '<' | '(' => read_collection(alloc, mark, last_values(values, rest)?),
        ':' => read_node(alloc, values, rest),
        'S' | 'L' | 'Y' | 'K' | 'R' | 'O' => read_tree(alloc, role_of(mark), values, rest),
        '*' => copies(alloc, &values.pop()?, rest),
        '^' => repeated(alloc, &values.pop()?, rest),
        _ => read_atom(alloc, mark, rest),
    }
}

fn read_atom(alloc: Global, mark: char, rest: &str) -> Option<Value> {
    match mark {
        'T' => Some(truth(true)),
        'F' => Some(truth(false)),
        '#' => Some(int(rest.parse::<i128>().ok()?)),
        '"' => text(alloc, unescaped(alloc, rest)?.as_str()).ok(),
        '\'' => leaf(alloc, unescaped(alloc, rest)?.as_str()).ok(),
        '|' => location(alloc, Scheme::Cwd, rest, None).ok(),
        _ => None,
    }
}

// A text whose characters behind a backslash stand for others.
fn unescaped(alloc: Global, written: &str) -> Option<String> {
    let mut out = String::new(alloc);
    let mut is_escaped = false;
    for c in written.chars() {
        if is_escaped {
            out.push(meant(c)).ok()?;
            is_escaped = false;
        } else if c == '\\' {
            is_escaped = true;
        } else {
            out.push(c).ok()?;
        }
    }
    Some(out)
}

fn meant(c: char) -> char {
    match c {
        'n' => '\n',
        't' => '\t',
        'r' => '\r',
        _ => c,
    }
}

// The last values, as many as are written.
fn last_values(values: &mut Vec<Value>, count: &str) -> Option<Vec<Value>> {
    let count = count.parse::<usize>().ok()?;
    let before = values.len().checked_sub(count)?;
    values.split_off(before).ok()
}

fn read_collection(alloc: Global, mark: char, parts: Vec<Value>) -> Option<Value> {
    match mark {
        '[' => list(alloc, parts).ok(),
        '{' => set(alloc, parts).ok(),
        '<' => tuple(alloc, parts).ok(),
        _ => map(alloc, pairs(alloc, &parts)?).ok(),
    }
}

fn pairs(alloc: Global, parts: &[Value]) -> Option<Vec<(Value, Value)>> {
    let mut pairs = Vec::new(alloc);
    for pair in parts.chunks(2) {
        let [key, value] = pair else {
            return None;
        };
        pairs.push((key.share().ok()?, value.share().ok()?)).ok()?;
    }
    Some(pairs)
}

fn read_node(alloc: Global, values: &mut Vec<Value>, rest: &str) -> Option<Value> {
    let (count, name) = rest.split_once(' ')?;
    node(alloc, name, last_values(values, count)?).ok()
}

fn role_of(mark: char) -> Role {
    match mark {
        'S' => Role::Syntax,
        'L' => Role::Lexical,
        'Y' => Role::Layout,
        'K' => Role::Keyword,
        'R' => Role::Rep,
        _ => Role::Opt,
    }
}

fn read_tree(alloc: Global, role: Role, values: &mut Vec<Value>, rest: &str) -> Option<Value> {
    let (count, sort) = rest.split_once(' ')?;
    let parts = last_values(values, count)?;
    let shape = Shape {
        role,
        sort: RcStr::from_str(alloc, sort).ok()?,
        label: RcStr::from_str(alloc, "").ok()?,
        rule: 0,
    };
    tree_of(alloc, shape, parts)
}

// A syntax tree, where each part can be one.
fn tree_of(alloc: Global, shape: Shape, parts: Vec<Value>) -> Option<Value> {
    for part in &parts {
        if !part.is_part() {
            return None;
        }
    }
    tree(alloc, shape, parts).ok()
}

fn copies(alloc: Global, value: &Value, count: &str) -> Option<Value> {
    let mut copies = Vec::new(alloc);
    for _ in 0..count.parse::<u32>().ok()? {
        copies.push(value.share().ok()?).ok()?;
    }
    list(alloc, copies).ok()
}

fn repeated(alloc: Global, value: &Value, count: &str) -> Option<Value> {
    let part = value.as_text()?;
    let mut out = String::new(alloc);
    for _ in 0..count.parse::<u32>().ok()? {
        out.push_str(part).ok()?;
    }
    text(alloc, out.as_str()).ok()
}
