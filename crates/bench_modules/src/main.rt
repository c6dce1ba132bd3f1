//! How long it takes to read a module of many small functions: for each number of functions on the standard input, one a line,
//! the number of declarations read on standard output, the time on standard error.
#![tactic(auto)]

use rl_reader::read_module;
use std::alloc::{AllocError, Global};
use std::io;
use std::rt::Clock;
use std::time::Instant;

// A small function.
const LINE: &str = "void f(){g();}\n";

fn text(alloc: Global, lines: u32) -> Result<String, AllocError> {
    let mut text = String::from_str(alloc, "module M\n")?;
    for _ in 0..lines {
        text.push_str(LINE)?;
    }
    Ok(text)
}

fn measure<R: Print + Eprint + Clock>(rt: &R, alloc: Global, lines: u32) -> io::Result<()> {
    let text = text(alloc, lines)?;
    let bytes = text.as_bytes();
    if bytes.len() > 1 << 24 {
        return println!(rt; "too long");
    }
    let start = Instant::now(rt)?;
    let Ok(module) = read_module(alloc, 0, "M.rsc", "M", bytes) else {
        return println!(rt; "no module");
    };
    let end = Instant::now(rt)?;
    eprintln!(rt;
        "{} bytes, read in {:?}",
        bytes.len(),
        end.duration_since(start)
    )?;
    println!(rt; "{}", module.declarations.len())
}

fn main(rt: HostRuntime) -> io::Result<()> {
    for line in rt.lines(rt.alloc()) {
        let line = line?;
        match line.as_str().parse::<u32>() {
            Ok(lines) => measure(&rt, rt.alloc(), lines)?,
            Err(_) => println!(rt; "no number")?,
        }
    }
    Ok(())
}
