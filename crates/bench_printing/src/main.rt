//! How long it takes to print and to show lists of numbers, each twice as long as the one before it: the lengths of their texts
//! on standard output, the times on standard error.
#![tactic(auto)]

use rl_print::{printed, shown};
use rl_value::{BuildEnd, Value, int, list};
use std::alloc::Global;
use std::io;
use std::rt::Clock;
use std::time::Instant;

const COUNTS: &[u32] = &[1 << 17, 1 << 18, 1 << 19, 1 << 20];

// A list of numbers in no order, each from the one before it.
fn numbers(alloc: Global, count: u32) -> Result<Value, BuildEnd> {
    let mut numbers = Vec::new(alloc);
    let mut number = 1u32;
    for _ in 0..count {
        number = number.wrapping_mul(1_664_525).wrapping_add(1_013_904_223);
        numbers.push(int(i128::from(number)))?;
    }
    list(alloc, numbers)
}

fn time_text<R: Print + Eprint + Clock>(
    rt: &R,
    alloc: Global,
    count: u32,
    numbers: &Value,
) -> io::Result<()> {
    let start = Instant::now(rt)?;
    let (Ok(printed), Ok(shown)) = (printed(alloc, numbers), shown(alloc, numbers)) else {
        return eprintln!(rt; "out of memory");
    };
    let end = Instant::now(rt)?;
    eprintln!(rt;
        "{count} numbers printed and shown: {:?}",
        end.duration_since(start)
    )?;
    println!(rt; "{count} {} {}", printed.len(), shown.len())
}

fn run<R: Print + Eprint + Clock>(rt: &R, alloc: Global) -> io::Result<()> {
    for count in COUNTS {
        let count = *count;
        let Ok(numbers) = numbers(alloc, count) else {
            return eprintln!(rt; "no list");
        };
        time_text(rt, alloc, count, &numbers)?;
    }
    Ok(())
}

fn main(rt: HostRuntime) -> io::Result<()> {
    run(&rt, rt.alloc())
}
