//! Lists of which a copy shares most.

ghost use Rattle.std.specs.Prelude.{◌≡◌, ◌↔◌, IsTrue, ◌<◌, ◌≤◌, ◌+◌, ◌^◌, IfOk, List, [], ◌∷◌, ◌++◌, length, take, drop, slice_get, slice_set, Some};
ghost use Rattle.std.specs.List.{insert, remove};
ghost use Rattle.rl_sequence.specs.Parts.{IsPart};
ghost use Rattle.rl_sequence.specs.Whole.{IsWhole, IsRightBody, body_elements};

use crate::chunk::{Chunk, Share};
use crate::leaf::{LIMIT, Leaf};
use crate::level::Level;
use std::alloc::{AllocError, Global};
use std::marker::Model;

/// A list of which a copy shares most, seen as the list of its elements. It has at most 2^32.
#[derive(Debug, Drop)]
pub struct Sequence<T> {
    body: Level<Level<Level<Leaf<T>>>>,
    /// The last elements, at most 64. A short sequence has no others.
    tail: Leaf<T>,
}

impl<T> Model for Sequence<T> {
    ghost use Rattle.std.specs.Prelude.{List};
    ghost use Rattle.std.specs.Coded.{coded_list};

    ghost Value = { List T };

    ghost coded = { coded_list T.code };

    ghost use Rattle.rl_sequence.specs.Whole.{whole_elements, IsWhole};

    ghost view = { λ s. whole_elements s.body s.tail };

    ghost invariant = { λ s. IsWhole s.body s.tail };
}

impl<T> Sequence<T> {
    /// How many elements there are.
    pub fn len(&self) -> usize
        ensures value { result ≡ length self.now }
        ensures small { result ≤ 2 ^ 32 }
    {
        self.body.count + self.tail.items.len()
    }

    /// Whether there are none.
    pub fn is_empty(&self) -> bool
        ensures { IsTrue result ↔ (length self.now ≡ 0) }
    {
        self.len() == 0
    }
}

impl<T: Share> Sequence<T> {
    /// No elements.
    pub fn new(alloc: Global) -> Sequence<T>
        ensures { result ≡ [] }
    {
        Sequence {
            body: Level {
                count: 0,
                children: Vec::new(alloc),
            },
            tail: Leaf {
                items: Vec::new(alloc),
            },
        }
    }

    /// These elements.
    pub fn from_vec(alloc: Global, items: Vec<T>) -> Result<Sequence<T>, AllocError>
        requires { length items.items ≤ 2 ^ 32 }
        ensures { IfOk result (λ s. s ≡ items.items) }
    {
        if items.len() <= LIMIT {
            return Ok(Sequence {
                body: Level {
                    count: 0,
                    children: Vec::new(alloc),
                },
                tail: Leaf { items },
            });
        }
        Sequence::new(alloc).extend(alloc, items)
    }

    /// The element at this place, counted from 0.
    pub fn get(&self, at: usize) -> &T
        requires { at < length self.now }
        ensures { slice_get self.now at ≡ Some result.now }
    {
        let before = self.body.count;
        if at < before {
            self.body.get_in(at)
        } else {
            self.tail.get(at - before)
        }
    }

    /// The elements from this place on that lie side by side, one at least.
    pub fn part(&self, at: usize) -> &[T]
        requires { at < length self.now }
        ensures { IsPart self.now at result.now }
    {
        let before = self.body.count;
        if at < before {
            self.body.part_in(at)
        } else {
            self.tail.part(at - before)
        }
    }

    /// The same list, which shares what is large with this one.
    pub fn share(&self, alloc: Global) -> Result<Sequence<T>, AllocError>
        ensures { IfOk result (λ s. s ≡ self.now) }
    {
        let body = self.body.copy_in(alloc)?;
        let tail = self.tail.copy(alloc)?;
        Ok(Sequence { body, tail })
    }

    /// The list with another element at this place.
    pub fn replace(self, alloc: Global, at: usize, item: T) -> Result<Sequence<T>, AllocError>
        requires { at < length self }
        ensures { IfOk result (λ s. s ≡ slice_set self at item) }
    {
        let Sequence { body, tail } = self;
        let before = body.count;
        if at < before {
            let body = body.replace_in(alloc, at, item)?;
            return Ok(Sequence { body, tail });
        }
        let tail = tail.replace(alloc, at - before, item)?;
        Ok(Sequence { body, tail })
    }

    /// The list with one more element at its end.
    pub fn push(self, alloc: Global, item: T) -> Result<Sequence<T>, AllocError>
        requires { length self < 2 ^ 32 }
        ensures { IfOk result (λ s. s ≡ self ++ item ∷ []) }
    {
        let Sequence { body, tail } = self;
        if tail.items.len() < LIMIT {
            let mut items = tail.items;
            items.push(item)?;
            return Ok(Sequence {
                body,
                tail: Leaf { items },
            });
        }
        let body = flush(alloc, body, tail)?;
        let mut items = Vec::new(alloc);
        items.push(item)?;
        Ok(Sequence {
            body,
            tail: Leaf { items },
        })
    }

    /// The list with one more element at this place.
    pub fn insert(self, alloc: Global, at: usize, item: T) -> Result<Sequence<T>, AllocError>
        requires within { at ≤ length self }
        requires small { length self < 2 ^ 32 }
        ensures { IfOk result (λ s. s ≡ insert self at item) }
    {
        if at == self.len() {
            let all = self.push(alloc, item)?;
            return Ok(all);
        }
        let Sequence { body, tail } = self;
        let before = body.count;
        if at < before {
            let body = body.insert_in(alloc, at, item)?;
            return Ok(Sequence { body, tail });
        }
        let (tail, more) = tail.insert(alloc, at - before, item)?;
        match more {
            None => Ok(Sequence { body, tail }),
            Some(more) => {
                let body = flush(alloc, body, tail)?;
                Ok(Sequence { body, tail: more })
            }
        }
    }

    /// The list without the element at this place.
    pub fn remove(self, alloc: Global, at: usize) -> Result<Sequence<T>, AllocError>
        requires { at < length self }
        ensures { IfOk result (λ s. s ≡ remove self at) }
    {
        let Sequence { body, tail } = self;
        let before = body.count;
        if at < before {
            let body = body.remove_in(alloc, at)?;
            return Ok(Sequence { body, tail });
        }
        let tail = tail.remove(alloc, at - before)?;
        Ok(Sequence { body, tail })
    }

    /// The elements from one place on and below another.
    pub fn cut(self, alloc: Global, from: usize, to: usize) -> Result<Sequence<T>, AllocError>
        requires order { from ≤ to }
        requires within { to ≤ length self }
        ensures { IfOk result (λ s. s ≡ drop from (take to self)) }
    {
        let all = self.front(alloc, to)?.back(alloc, from)?;
        Ok(all)
    }

    // The first elements alone.
    fn front(self, alloc: Global, n: usize) -> Result<Sequence<T>, AllocError>
        requires { n ≤ length self }
        ensures { IfOk result (λ s. s ≡ take n self) }
    {
        let Sequence { body, tail } = self;
        let before = body.count;
        if n <= before {
            let body = body.front_in(alloc, n)?;
            let tail = Leaf {
                items: Vec::new(alloc),
            };
            return Ok(Sequence { body, tail });
        }
        let tail = tail.front(alloc, n - before)?;
        Ok(Sequence { body, tail })
    }

    // All but the first elements.
    fn back(self, alloc: Global, n: usize) -> Result<Sequence<T>, AllocError>
        requires { n ≤ length self }
        ensures { IfOk result (λ s. s ≡ drop n self) }
    {
        let Sequence { body, tail } = self;
        let before = body.count;
        if n < before {
            let body = body.back_in(alloc, n)?;
            return Ok(Sequence { body, tail });
        }
        let body = Level {
            count: 0,
            children: Vec::new(alloc),
        };
        let tail = tail.back(alloc, n - before)?;
        Ok(Sequence { body, tail })
    }

    /// The list with these elements behind its own.
    pub fn extend(self, alloc: Global, items: Vec<T>) -> Result<Sequence<T>, AllocError>
        requires { length self + length items.items ≤ 2 ^ 32 }
        ensures { IfOk result (λ s. s ≡ self ++ items.items) }
    {
        let mut all = self;
        for item in items {
            all = all.push(alloc, item)?;
        }
        Ok(all)
    }

    /// The list with the elements of another behind its own.
    pub fn concat(self, alloc: Global, other: Sequence<T>) -> Result<Sequence<T>, AllocError>
        requires { length self + length other ≤ 2 ^ 32 }
        ensures { IfOk result (λ s. s ≡ self ++ other) }
    {
        let Sequence {
            body: behind,
            tail: last,
        } = other;
        if behind.count == 0 {
            let all = self.extend(alloc, last.items)?;
            return Ok(all);
        }
        let Sequence { body, tail } = self;
        let body = flush(alloc, body, tail)?;
        let body = body.append(alloc, behind)?;
        Ok(Sequence { body, tail: last })
    }
}

// The items of the tail as the last of the body.
fn flush<T: Share>(
    alloc: Global,
    body: Level<Level<Level<Leaf<T>>>>,
    tail: Leaf<T>,
) -> Result<Level<Level<Level<Leaf<T>>>>, AllocError>
    requires { IsWhole body tail }
    ensures right { IfOk result IsRightBody }
    ensures holds { IfOk result (λ b. body_elements b ≡ body_elements body ++ tail.items.items) }
{
    let Leaf { items } = tail;
    let last: Level<Level<Level<Leaf<T>>>> = Level::of_items(alloc, items)?;
    let body = body.append(alloc, last)?;
    Ok(body)
}
