//! Reads calls from the standard input, one a line, and prints what each answers.
//!
//! A line has the name of a call and its operands, each value before its parts: `+ list:2 1 2 text:a` is `[1,2] + "a"`.
//! `kinds1` or `kinds2` and a name tell which kinds of operands the call takes, in the order of kinds: a point for one that
//! it takes, and `W` for one of the wrong kind.
#![tactic(auto)]

mod calls;
mod exceptions;
mod no_case;
mod values;

use crate::calls::{Answer, apply, apply_one, apply_two};
use crate::no_case::NoCase;
use crate::values::read_values;
use rl_exception::OpEnd;
use rl_print::printed;
use rl_value::Value;
use std::alloc::Global;
use std::{io, str};

// An operand of each kind, in the order of kinds.
const KINDS: &str =
    "true 7 text:ab cwd:p tuple:2 1 2 list:2 1 2 set:2 1 2 map:1 1 10 node:1 7 tree:add leaf:x";

// Values above this size are not printed whole.
const MAX_PRINTED: u32 = 100;

fn push_printed(alloc: Global, out: &mut String, value: &Value) -> Result<(), NoCase> {
    if value.size() > MAX_PRINTED {
        let (size, height) = (value.size(), value.height());
        out.push_str(format!(in alloc; "a value of size {size} and height {height}")?.as_str())?;
        return Ok(());
    }
    let bytes = printed(alloc, value)?;
    match str::from_utf8(&bytes) {
        Ok(text) => out.push_str(text)?,
        Err(_) => return Err(NoCase),
    }
    Ok(())
}

fn push_answer(alloc: Global, out: &mut String, answer: &Answer) -> Result<(), NoCase> {
    match answer {
        Ok(value) => push_printed(alloc, out, value),
        Err(OpEnd::Throw(exception)) => {
            out.push_str("throws ")?;
            push_printed(alloc, out, exception)
        }
        Err(OpEnd::OutOfMemory) => Err(NoCase),
    }
}

// A point, or `W` where an operand is of the wrong kind.
fn mark(answer: &Answer) -> char {
    match answer {
        Err(OpEnd::Throw(exception)) if exception.name() == Some("WrongKind") => 'W',
        _ => '.',
    }
}

fn push_marks(alloc: Global, out: &mut String, name: &str, values: &[Value]) -> Result<(), NoCase> {
    for a in values {
        match apply_one(alloc, name, a) {
            Some(answer) => out.push(mark(&answer))?,
            None => return Err(NoCase),
        }
    }
    Ok(())
}

// The marks of one left operand with each right one.
fn push_row(
    alloc: Global,
    out: &mut String,
    name: &str,
    a: &Value,
    values: &[Value],
) -> Result<(), NoCase> {
    for b in values {
        match apply_two(alloc, name, a, b) {
            Some(answer) => out.push(mark(&answer))?,
            None => return Err(NoCase),
        }
    }
    Ok(())
}

fn push_rows(alloc: Global, out: &mut String, name: &str, values: &[Value]) -> Result<(), NoCase> {
    for a in values {
        out.push(' ')?;
        push_row(alloc, out, name, a, values)?;
    }
    Ok(())
}

fn push_call(
    alloc: Global,
    out: &mut String,
    name: &str,
    operands: &[Value],
) -> Result<(), NoCase> {
    match apply(alloc, name, operands) {
        Some(answer) => push_answer(alloc, out, &answer),
        None => Err(NoCase),
    }
}

fn push_case(alloc: Global, out: &mut String, name: &str, operands: &str) -> Result<(), NoCase> {
    match name {
        "kinds1" => push_marks(alloc, out, operands, &read_values(alloc, KINDS)?),
        "kinds2" => push_rows(alloc, out, operands, &read_values(alloc, KINDS)?),
        _ => push_call(alloc, out, name, &read_values(alloc, operands)?),
    }
}

fn answer_to(alloc: Global, line: &str) -> Result<String, NoCase> {
    let mut out = String::new(alloc);
    match line.split_once(' ') {
        Some((name, operands)) => push_case(alloc, &mut out, name, operands)?,
        None => push_call(alloc, &mut out, line, &[])?,
    }
    Ok(out)
}

fn main(rt: HostRuntime) -> io::Result<()> {
    for line in rt.lines(rt.alloc()) {
        let line = line?;
        match answer_to(rt.alloc(), line.as_str()) {
            Ok(answer) => println!(rt; "{line} = {answer}")?,
            Err(_) => println!(rt; "{line}")?,
        }
    }
    Ok(())
}
