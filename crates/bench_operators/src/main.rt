//! How much processor time operations on large values take: the parts of their answers on standard output, the times on standard
//! error.
#![tactic(auto)]

use rl_exception::OpEnd;
use rl_operators::BinOp::{Add, Compose, In, Intersect, Subtract};
use rl_operators::UnOp::TransitiveClosure;
use rl_operators::{BinOp, UnOp, binary, unary};
use rl_relation::domain_restricted;
use rl_value::{BuildEnd, Value, int, list, map, set, tuple};
use std::alloc::Global;
use std::io;
use std::time::CpuClock;

const COUNTS: &[u32] = &[1 << 14, 1 << 15, 1 << 16, 1 << 17];

// How long the lists are of which one is taken from the other.
const LIST_COUNTS: &[u32] = &[1 << 11, 1 << 12, 1 << 13];

#[derive(Debug, Clone, Copy)]
enum Call {
    Binary(BinOp),
    Unary(UnOp),
    DomainR,
}

fn apply(alloc: Global, call: Call, a: &Value, b: &Value) -> Result<Value, OpEnd> {
    match call {
        Call::Binary(op) => binary(alloc, op, a, b),
        Call::Unary(op) => unary(alloc, op, a),
        Call::DomainR => domain_restricted(alloc, a, b),
    }
}

// The first numbers, each times this factor.
fn multiples(alloc: Global, count: u32, factor: u32) -> Result<Vec<Value>, BuildEnd> {
    let mut numbers = Vec::new(alloc);
    for i in 0..count {
        numbers.push(int(i128::from(i.wrapping_mul(factor))))?;
    }
    Ok(numbers)
}

fn set_of(alloc: Global, count: u32, factor: u32) -> Result<Value, BuildEnd> {
    set(alloc, multiples(alloc, count, factor)?)
}

fn list_of(alloc: Global, count: u32, factor: u32) -> Result<Value, BuildEnd> {
    list(alloc, multiples(alloc, count, factor)?)
}

fn map_of(alloc: Global, count: u32, factor: u32) -> Result<Value, BuildEnd> {
    let mut entries = Vec::new(alloc);
    for i in 0..count {
        let key = int(i128::from(i.wrapping_mul(factor)));
        entries.push((key, int(i128::from(factor))))?;
    }
    map(alloc, entries)
}

fn pair(alloc: Global, x: u32, y: u32) -> Result<Value, BuildEnd> {
    let mut parts = Vec::new(alloc);
    parts.push(int(i128::from(x)))?;
    parts.push(int(i128::from(y)))?;
    tuple(alloc, parts)
}

// This many pairs, each of which begins where the one before it ends.
fn chain(alloc: Global, count: u32) -> Result<Value, BuildEnd> {
    let mut pairs = Vec::new(alloc);
    for i in 0..count {
        pairs.push(pair(alloc, i, i.wrapping_add(1))?)?;
    }
    set(alloc, pairs)
}

// Each of this many numbers with each.
fn clique(alloc: Global, count: u32) -> Result<Value, BuildEnd> {
    let mut pairs = Vec::new(alloc);
    for i in 0..count {
        for j in 0..count {
            pairs.push(pair(alloc, i, j)?)?;
        }
    }
    set(alloc, pairs)
}

fn time<R: Print + Eprint + CpuClock>(
    rt: &R,
    alloc: Global,
    what: Call,
    a: &Value,
    b: &Value,
) -> io::Result<()> {
    let start = rt.thread_cpu_time()?;
    let answer = apply(alloc, what, a, b);
    let end = rt.thread_cpu_time()?;
    let (count, parts) = (a.child_count(), count_in(&answer));
    eprintln!(rt; "{what:?} of {count}: {:?}", end.saturating_sub(start))?;
    println!(rt; "{what:?} of {count}: {parts}")
}

fn count_in(answer: &Result<Value, OpEnd>) -> u32 {
    match answer {
        Ok(value) => value.child_count(),
        Err(_) => 0,
    }
}

// Looks up each number below a count.
fn time_lookups<R: Print + Eprint + CpuClock>(
    rt: &R,
    alloc: Global,
    count: u32,
    a: &Value,
) -> io::Result<()> {
    let start = rt.thread_cpu_time()?;
    let mut found = 0u32;
    for i in 0..count {
        if is_in(alloc, &int(i128::from(i)), a) {
            found = found.wrapping_add(1);
        }
    }
    let end = rt.thread_cpu_time()?;
    eprintln!(rt; "{count} times In: {:?}", end.saturating_sub(start))?;
    println!(rt; "{count} times In: {found}")
}

fn is_in(alloc: Global, x: &Value, a: &Value) -> bool {
    match &binary(alloc, In, x, a) {
        Ok(answer) => answer.as_bool() == Some(true),
        Err(_) => false,
    }
}

// The two are built, or this gives none.
fn both(a: Result<Value, BuildEnd>, b: Result<Value, BuildEnd>) -> Option<(Value, Value)> {
    match (a, b) {
        (Ok(a), Ok(b)) => Some((a, b)),
        _ => None,
    }
}

fn time_all<R: Print + Eprint + CpuClock>(
    rt: &R,
    alloc: Global,
    calls: &[Call],
    operands: Option<(Value, Value)>,
) -> io::Result<()> {
    let Some((a, b)) = operands else {
        return println!(rt; "not built");
    };
    for what in calls {
        time(rt, alloc, *what, &a, &b)?;
    }
    Ok(())
}

fn time_sets<R: Print + Eprint + CpuClock>(rt: &R, alloc: Global, count: u32) -> io::Result<()> {
    let calls = [
        Call::Binary(Add),
        Call::Binary(Subtract),
        Call::Binary(Intersect),
    ];
    let sets = both(set_of(alloc, count, 2), set_of(alloc, count, 3));
    time_all(rt, alloc, &calls, sets)?;
    let maps = both(map_of(alloc, count, 2), map_of(alloc, count, 3));
    time_all(rt, alloc, &[Call::Binary(Add)], maps)
}

fn time_relations<R: Print + Eprint + CpuClock>(
    rt: &R,
    alloc: Global,
    count: u32,
) -> io::Result<()> {
    let chains = both(chain(alloc, count), chain(alloc, count));
    time_all(rt, alloc, &[Call::Binary(Compose)], chains)?;
    let chain_and_set = both(chain(alloc, count), set_of(alloc, count, 2));
    time_all(rt, alloc, &[Call::DomainR], chain_and_set)?;
    match set_of(alloc, count, 2) {
        Ok(twos) => time_lookups(rt, alloc, count, &twos),
        Err(_) => println!(rt; "not built"),
    }
}

fn main(rt: HostRuntime) -> io::Result<()> {
    let alloc = rt.alloc();
    let closure = [Call::Unary(TransitiveClosure)];
    let chains = both(chain(alloc, 2000), chain(alloc, 2000));
    time_all(&rt, alloc, &closure, chains)?;
    let cliques = both(clique(alloc, 300), clique(alloc, 300));
    time_all(&rt, alloc, &closure, cliques)?;
    for count in COUNTS {
        time_sets(&rt, alloc, *count)?;
        time_relations(&rt, alloc, *count)?;
    }
    for count in LIST_COUNTS {
        let lists = both(list_of(alloc, *count, 2), list_of(alloc, *count, 1));
        time_all(&rt, alloc, &[Call::Binary(Subtract)], lists)?;
    }
    Ok(())
}
