//! Sequences beside vectors.

use crate::{Sequence, Share};
use std::alloc::{AllocError, Global};
use std::test::Fail;

impl Share for u32 {
    fn share(&self) -> Result<u32, AllocError> {
        Ok(*self)
    }
}

const FEW: usize = 1 << 20;

// The numbers from 0 on, as one is put behind another.
fn counted(alloc: Global, n: u32) -> Result<Sequence<u32>, AllocError> {
    let mut all = Sequence::new(alloc);
    for k in 0..n {
        if all.len() < FEW {
            all = all.push(alloc, k)?;
        }
    }
    Ok(all)
}

fn numbers(alloc: Global, n: u32) -> Result<Vec<u32>, AllocError> {
    let mut all = Vec::new(alloc);
    for k in 0..n {
        all.push(k)?;
    }
    Ok(all)
}

fn is_same(all: &Sequence<u32>, wanted: &[u32]) -> bool {
    for at in 0..all.len() {
        if at >= wanted.len() || *all.get(at) != wanted[at] {
            return false;
        }
    }
    all.len() == wanted.len()
}

fn inserted(
    alloc: Global,
    all: Sequence<u32>,
    at: usize,
    n: u32,
) -> Result<Sequence<u32>, AllocError> {
    if at > all.len() || all.len() >= FEW {
        return Ok(all);
    }
    all.insert(alloc, at, n)
}

#[test]
fn grows_at_the_end(rt: HostRuntime) -> Result<(), Fail> {
    let alloc = rt.alloc();
    let all = counted(alloc, 20_000)?;
    let wanted = numbers(alloc, 20_000)?;
    assert!(rt; is_same(&all, &wanted));
    let few = numbers(alloc, 300)?;
    assert_eq!(rt; few.len(), 300);
    assert!(rt; is_same(&Sequence::from_vec(alloc, few)?, &numbers(alloc, 300)?));
    assert!(rt; !all.is_empty());
    Ok(())
}

#[test]
fn grows_in_the_middle(rt: HostRuntime) -> Result<(), Fail> {
    let alloc = rt.alloc();
    let mut all = counted(alloc, 200)?;
    let mut wanted = numbers(alloc, 200)?;
    for k in 0..9_000 {
        let at = (k as usize * 7919) % 200;
        all = inserted(alloc, all, at, k)?;
        if at <= wanted.len() {
            wanted.insert(at, k)?;
        }
    }
    assert!(rt; is_same(&all, &wanted));
    Ok(())
}

#[test]
fn keeps_what_is_shared(rt: HostRuntime) -> Result<(), Fail> {
    let alloc = rt.alloc();
    let wanted = numbers(alloc, 5_000)?;
    let all = counted(alloc, 5_000)?;
    assert_eq!(rt; all.len(), 5_000);
    assert_eq!(rt; wanted.len(), 5_000);
    let replaced = all.share(alloc)?.replace(alloc, 70, 1)?;
    let removed = all.share(alloc)?.remove(alloc, 70)?;
    let cut = all.share(alloc)?.cut(alloc, 70, 4_999)?;
    let twice = all.share(alloc)?.concat(alloc, all.share(alloc)?)?;
    assert!(rt; is_same(&all, &wanted));
    assert!(rt; is_same(&cut, &wanted[70..4_999]));
    assert_eq!(rt;
        (replaced.len(), removed.len(), twice.len()),
        (5_000, 4_999, 10_000)
    );
    assert!(rt; *replaced.get(70) == 1 && *removed.get(70) == 71 && *twice.get(5_070) == 70);
    assert!(rt; all.part(70).starts_with(&[70, 71]));
    Ok(())
}
