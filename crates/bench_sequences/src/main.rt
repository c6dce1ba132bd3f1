//! How long edits of long sequences take, each plainly and where the list before it is kept: the times on standard error.
#![tactic(auto)]

use rl_sequence::{Sequence, Share};
use std::alloc::{AllocError, Global};
use std::io;
use std::rt::Clock;
use std::time::Instant;

/// A number as an element.
#[derive(Debug, Drop)]
struct Number {
    n: u64,
}

impl Share for Number {
    fn share(&self) -> Result<Number, AllocError> {
        Ok(Number { n: self.n })
    }
}

const MOST: usize = 1 << 24;

fn pushed(alloc: Global, all: Sequence<Number>, n: u64) -> Result<Sequence<Number>, AllocError> {
    if all.len() >= MOST {
        return Ok(all);
    }
    all.push(alloc, Number { n })
}

fn inserted(alloc: Global, all: Sequence<Number>, n: u64) -> Result<Sequence<Number>, AllocError> {
    let len = all.len();
    if len == 0 || len >= MOST {
        return pushed(alloc, all, n);
    }
    let at = (n.wrapping_mul(2_654_435_761) % len as u64) as usize;
    all.insert(alloc, at, Number { n })
}

fn replaced(alloc: Global, all: Sequence<Number>, n: u64) -> Result<Sequence<Number>, AllocError> {
    let len = all.len();
    if len == 0 {
        return Ok(all);
    }
    let at = (n.wrapping_mul(2_654_435_761) % len as u64) as usize;
    all.replace(alloc, at, Number { n })
}

fn made(alloc: Global, n: u64) -> Result<Sequence<Number>, AllocError> {
    let mut all = Sequence::new(alloc);
    for k in 0..n {
        all = pushed(alloc, all, k)?;
    }
    Ok(all)
}

fn vector(alloc: Global, n: u64) -> Result<u64, AllocError> {
    let mut all = Vec::new(alloc);
    for k in 0..n {
        all.push(Number { n: k })?;
    }
    Ok(all.len() as u64)
}

fn kept_pushes(alloc: Global, n: u64) -> Result<u64, AllocError> {
    let mut all = Sequence::new(alloc);
    for k in 0..n {
        let kept = all.share(alloc)?;
        all = pushed(alloc, all, k)?;
        drop(kept);
    }
    Ok(all.len() as u64)
}

fn inserts(alloc: Global, n: u64, kept: bool) -> Result<u64, AllocError> {
    let mut all = Sequence::new(alloc);
    for k in 0..n {
        let old = if kept {
            all.share(alloc)?
        } else {
            Sequence::new(alloc)
        };
        all = inserted(alloc, all, k)?;
        drop(old);
    }
    Ok(all.len() as u64)
}

fn replaces(alloc: Global, all: Sequence<Number>, n: u64, kept: bool) -> Result<u64, AllocError> {
    let mut all = all;
    for k in 0..n {
        let old = if kept {
            all.share(alloc)?
        } else {
            Sequence::new(alloc)
        };
        all = replaced(alloc, all, k)?;
        drop(old);
    }
    Ok(all.len() as u64)
}

fn cuts(alloc: Global, all: Sequence<Number>, n: u64, kept: bool) -> Result<u64, AllocError> {
    let mut all = all;
    for _ in 0..n {
        let len = all.len();
        let old = if kept {
            all.share(alloc)?
        } else {
            Sequence::new(alloc)
        };
        if len > 0 {
            all = all.cut(alloc, 1, len)?;
        }
        drop(old);
    }
    Ok(all.len() as u64)
}

fn removes(alloc: Global, all: Sequence<Number>, n: u64) -> Result<u64, AllocError> {
    let mut all = all;
    for k in 0..n {
        let len = all.len();
        if len > 0 {
            let at = (k.wrapping_mul(2_654_435_761) % len as u64) as usize;
            all = all.remove(alloc, at)?;
        }
    }
    Ok(all.len() as u64)
}

fn joins(alloc: Global, n: u64) -> Result<u64, AllocError> {
    let mut all = Sequence::new(alloc);
    let more = made(alloc, 70)?;
    for _ in 0..n / 70 {
        let behind = more.share(alloc)?;
        if all.len() < MOST && behind.len() <= 70 {
            all = all.concat(alloc, behind)?;
        }
    }
    Ok(all.len() as u64)
}

fn gets(all: &Sequence<Number>) -> u64 {
    let mut sum = 0u64;
    for at in 0..all.len() {
        sum = sum.wrapping_add(all.get(at).n);
    }
    sum
}

fn walk(all: &Sequence<Number>) -> u64 {
    let mut sum = 0u64;
    let mut at = 0;
    while at < all.len() {
        let part = all.part(at);
        for item in part {
            sum = sum.wrapping_add(item.n);
        }
        at += part.len();
    }
    sum
}

fn report<R: Eprint + Clock>(
    rt: &R,
    what: &str,
    n: u64,
    start: Instant,
    made: Result<u64, AllocError>,
) -> io::Result<()> {
    let spent = Instant::now(rt)?.duration_since(start);
    match made {
        Ok(size) => eprintln!(rt; "{what} {n}: {:?} ({size})", spent),
        Err(_) => eprintln!(rt; "{what} {n}: not made"),
    }
}

fn run<R: Eprint + Clock>(rt: &R, alloc: Global) -> io::Result<()> {
    for n in [1u64 << 12, 1 << 14, 1 << 16, 1 << 18] {
        let start = Instant::now(rt)?;
        report(rt, "vector pushes", n, start, vector(alloc, n))?;
        let start = Instant::now(rt)?;
        report(rt, "pushes", n, start, all_pushes(alloc, n))?;
        let start = Instant::now(rt)?;
        report(rt, "pushes kept", n, start, kept_pushes(alloc, n))?;
        let start = Instant::now(rt)?;
        report(rt, "inserts", n, start, inserts(alloc, n, false))?;
        let start = Instant::now(rt)?;
        report(rt, "inserts kept", n, start, inserts(alloc, n, true))?;
        let start = Instant::now(rt)?;
        report(rt, "joins of 70", n, start, joins(alloc, n))?;
        for kept in [false, true] {
            if let Ok(all) = made(alloc, n) {
                let start = Instant::now(rt)?;
                report(
                    rt,
                    if kept { "replaces kept" } else { "replaces" },
                    n,
                    start,
                    replaces(alloc, all, n, kept),
                )?;
            }
            if let Ok(all) = made(alloc, n) {
                let start = Instant::now(rt)?;
                report(
                    rt,
                    if kept { "cuts kept" } else { "cuts" },
                    n,
                    start,
                    cuts(alloc, all, n, kept),
                )?;
            }
        }
        if let Ok(all) = made(alloc, n) {
            let start = Instant::now(rt)?;
            let sum = gets(&all);
            report(rt, "gets", n, start, Ok(sum))?;
            let start = Instant::now(rt)?;
            let sum = walk(&all);
            report(rt, "walk", n, start, Ok(sum))?;
            let start = Instant::now(rt)?;
            report(rt, "removes", n, start, removes(alloc, all, n))?;
        }
    }
    Ok(())
}

fn all_pushes(alloc: Global, n: u64) -> Result<u64, AllocError> {
    Ok(made(alloc, n)?.len() as u64)
}

fn main(rt: HostRuntime) -> io::Result<()> {
    run(&rt, rt.alloc())
}
