//! How long it takes to make a set of 2^20 numbers that come in no order: its size and least number on standard output, the
//! time on standard error. `tools/set-bench` compares it with Rust's own ordered set.
#![tactic(auto)]

use rl_value::{BuildEnd, Value, int, set};
use std::alloc::Global;
use std::io;
use std::rt::Clock;
use std::time::Instant;

const COUNT: u32 = 1 << 20;

// Numbers in no order, each from the one before it.
fn numbers(alloc: Global) -> Result<Vec<Value>, BuildEnd> {
    let mut numbers = Vec::new(alloc);
    let mut number = 1u32;
    for _ in 0..COUNT {
        number = number.wrapping_mul(1_664_525).wrapping_add(1_013_904_223);
        numbers.push(int(i128::from(number)))?;
    }
    Ok(numbers)
}

fn run<R: Print + Eprint + Clock>(rt: &R, alloc: Global) -> io::Result<()> {
    let Ok(numbers) = numbers(alloc) else {
        return eprintln!(rt; "out of memory");
    };
    let start = Instant::now(rt)?;
    let Ok(made) = set(alloc, numbers) else {
        return eprintln!(rt; "no set");
    };
    let end = Instant::now(rt)?;
    eprintln!(rt; "set of values: {:?}", end.duration_since(start))?;
    let count = made.child_count();
    if count == 0 {
        return eprintln!(rt; "an empty set");
    }
    println!(rt; "{count} {}", made.child(0).as_int().unwrap_or(0))
}

fn main(rt: HostRuntime) -> io::Result<()> {
    run(&rt, rt.alloc())
}
