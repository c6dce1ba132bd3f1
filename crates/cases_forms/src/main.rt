//! Reads modules with every form, and prints what is in them.
#![tactic(auto)]

mod declarations;
mod expressions;
mod grammar;
mod names;
mod patterns;
mod texts;
mod types;

use declarations::show_module;
use rl_reader::{ReadFault, read_module};
use std::alloc::Global;
use std::io;
use texts::TEXTS;

fn show_text<R: Print>(rt: &R, alloc: Global, text: &str) -> io::Result<()> {
    if text.len() > 1 << 24 {
        return println!(rt; "too long");
    }
    match read_module(alloc, 0, "A.rsc", "A", text.as_bytes()) {
        Ok(module) => show_module(rt, &module),
        Err(ReadFault::Fault { place, code }) => println!(rt;
            "M{code} {}:{}",
            place.line, place.column
        ),
        Err(ReadFault::OutOfMemory) => println!(rt; "out of memory"),
    }
}

fn run<R: Print>(rt: &R, alloc: Global) -> io::Result<()> {
    for text in TEXTS {
        show_text(rt, alloc, text)?;
    }
    Ok(())
}

fn main(rt: HostRuntime) -> io::Result<()> {
    run(&rt, rt.alloc())
}
