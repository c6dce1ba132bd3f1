//! Reads calls of library functions, one a line, and prints what each gives or throws. A line has the
//! function's name and then words, with tabs between, which `reading` tells.
#![tactic(auto)]

mod names;
mod reading;

use names::{FUNCTIONS, function_named};
use reading::read_values;
use rl_exception::OpEnd;
use rl_library::library;
use rl_print::printed;
use rl_value::Value;
use std::alloc::Global;
use std::{io, str};

fn main(rt: HostRuntime) -> io::Result<()> {
    for line in rt.lines(rt.alloc()) {
        put_case(&rt, rt.alloc(), line?.as_str())?;
    }
    Ok(())
}

fn put_case<R: Print>(rt: &R, alloc: Global, line: &str) -> io::Result<()> {
    let Some((name, words)) = line.split_once('\t') else {
        return println!(rt; "{line} has no arguments");
    };
    match answer(alloc, name, words) {
        Some(Ok(value)) => put(rt, alloc, name, "", &value),
        Some(Err(OpEnd::Throw(exception))) => put(rt, alloc, name, "throws ", &exception),
        Some(Err(OpEnd::OutOfMemory)) => println!(rt; "{name} out of memory"),
        None => println!(rt; "{name} not read"),
    }
}

fn answer(alloc: Global, name: &str, words: &str) -> Option<Result<Value, OpEnd>> {
    let f = function_named(&FUNCTIONS, name)?;
    let arguments = read_values(alloc, words)?;
    if f.arity() == Some(arguments.len()) {
        Some(library(alloc, f, &arguments))
    } else {
        None
    }
}

fn put<R: Print>(rt: &R, alloc: Global, name: &str, mark: &str, value: &Value) -> io::Result<()> {
    let Ok(bytes) = printed(alloc, value) else {
        return println!(rt; "{name} out of memory");
    };
    match str::from_utf8(&bytes) {
        Ok(text) => println!(rt; "{name} {mark}{text}"),
        Err(_) => println!(rt; "{name} not UTF-8"),
    }
}
