//! The lowest parts of a sequence: a few items side by side.

ghost use Rattle.std.specs.Prelude.{◌≡◌, ◌<◌, ◌≤◌, ◌+◌, ◌^◌, IfOk, List, [], ◌∷◌, ◌++◌, length, take, drop, slice_get, slice_set, Some};
ghost use Rattle.std.specs.List.{insert, remove};
ghost use Rattle.rl_sequence.specs.Parts.{Makes};
ghost use Rattle.rl_sequence.specs.Whole.{leaf_elements, IsRightLeaf, leaf_width};

use crate::chunk::{Chunk, Share};
use std::alloc::{AllocError, Global};

/// The most items of a leaf, and the most children of a level inside another.
pub(crate) const LIMIT: usize = 64;

#[derive(Debug, Drop)]
pub(crate) struct Leaf<T> {
    pub(crate) items: Vec<T>,
}

// The items in two halves, with one more.
fn split<T: Drop>(items: Vec<T>, at: usize, item: T) -> Result<(Vec<T>, Vec<T>), AllocError>
    requires within { at ≤ length items.items }
    requires full { length items.items ≡ 64 }
    ensures items { IfOk result (λ p. p.0.items ++ p.1.items ≡ insert items.items at item) }
    ensures few { IfOk result (λ p. (length p.0.items ≤ 64) × (length p.1.items ≤ 64)) }
{
    let mut front = items;
    let mut back = front.split_off(LIMIT / 2)?;
    if at <= LIMIT / 2 {
        front.insert(at, item)?;
        return Ok((front, back));
    }
    back.insert(at - LIMIT / 2, item)?;
    Ok((front, back))
}

impl<T: Share> Chunk for Leaf<T> {
    type Item = T;

    ghost elements = { leaf_elements };

    ghost is_right = { IsRightLeaf };

    ghost width = { leaf_width };

    fn of_items(_alloc: Global, items: Vec<T>) -> Result<Self, AllocError>
        requires { length items.items ≤ 64 }
        ensures { IfOk result (Makes leaf_elements IsRightLeaf leaf_width items.items) }
    {
        Ok(Leaf { items })
    }

    fn len(&self) -> usize {
        self.items.len()
    }

    fn width(&self) -> usize {
        self.items.len()
    }

    fn get(&self, at: usize) -> &T {
        &self.items[at]
    }

    fn part(&self, at: usize) -> &[T] {
        &self.items[at..]
    }

    fn copy(&self, alloc: Global) -> Result<Self, AllocError> {
        let mut items = Vec::with_capacity(alloc, self.items.len() + 1)?;
        for item in &self.items {
            items.push(item.share()?)?;
        }
        Ok(Leaf { items })
    }

    fn replace(self, _alloc: Global, at: usize, item: T) -> Result<Self, AllocError> {
        let Leaf { mut items } = self;
        items[at] = item;
        Ok(Leaf { items })
    }

    fn insert(
        self,
        _alloc: Global,
        at: usize,
        item: T,
    ) -> Result<(Self, Option<Self>), AllocError> {
        let Leaf { mut items } = self;
        if items.len() < LIMIT {
            items.insert(at, item)?;
            return Ok((Leaf { items }, None));
        }
        let (items, more) = split(items, at, item)?;
        Ok((Leaf { items }, Some(Leaf { items: more })))
    }

    fn remove(self, _alloc: Global, at: usize) -> Result<Self, AllocError> {
        let Leaf { mut items } = self;
        drop(items.remove(at));
        Ok(Leaf { items })
    }

    fn front(self, _alloc: Global, n: usize) -> Result<Self, AllocError> {
        let Leaf { mut items } = self;
        items.truncate(n);
        Ok(Leaf { items })
    }

    fn back(self, _alloc: Global, n: usize) -> Result<Self, AllocError> {
        let Leaf { mut items } = self;
        let items = items.split_off(n)?;
        Ok(Leaf { items })
    }

    fn merge(self, _alloc: Global, other: Self) -> Result<Self, AllocError> {
        let Leaf { mut items } = self;
        let Leaf { items: mut more } = other;
        items.append(&mut more)?;
        Ok(Leaf { items })
    }
}
