//! Levels of parts, one above another.

ghost use Rattle.std.specs.Prelude.{◌≡◌, ◌<◌, ◌≤◌, ◌+◌, ◌^◌, IfOk, List, [], ◌∷◌, ◌++◌, length, take, drop, slice_get, slice_set, Some};
ghost use Rattle.std.specs.List.{insert, remove};
ghost use Rattle.rl_sequence.specs.Parts.{flat, IsLevel, IsPart, Makes, MakesTwo};
ghost use Rattle.rl_sequence.specs.Whole.{IsInner, IsEdited, level_width};

use crate::children::{Child, alone, close, close_two, find, join, open, share_all, total};
use crate::chunk::Chunk;
use crate::leaf::LIMIT;
use std::alloc::{AllocError, Global};

/// Some parts, one after another, with their number of elements.
#[derive(Debug, Drop)]
pub(crate) struct Level<C> {
    pub(crate) count: usize,
    pub(crate) children: Vec<Child<C>>,
}

impl<C: Chunk> Level<C> {
    pub(crate) fn get_in(&self, at: usize) -> &C::Item
        requires right { IsLevel C.elements C.is_right C.width self.now.count self.now.children.items }
        requires within { at < length (flat C.elements C.is_right C.width self.now.children.items) }
        ensures { slice_get (flat C.elements C.is_right C.width self.now.children.items) at ≡ Some result.now }
    {
        let place = find(&self.children, at);
        self.children[place.child].chunk.get(place.inside)
    }

    pub(crate) fn part_in(&self, at: usize) -> &[C::Item]
        requires right { IsLevel C.elements C.is_right C.width self.now.count self.now.children.items }
        requires within { at < length (flat C.elements C.is_right C.width self.now.children.items) }
        ensures { IsPart (flat C.elements C.is_right C.width self.now.children.items) at result.now }
    {
        let place = find(&self.children, at);
        self.children[place.child].chunk.part(place.inside)
    }

    pub(crate) fn copy_in(&self, alloc: Global) -> Result<Level<C>, AllocError>
        requires { IsLevel C.elements C.is_right C.width self.now.count self.now.children.items }
        ensures edited { IfOk result (IsEdited C.elements C.is_right C.width (flat C.elements C.is_right C.width self.now.children.items) (length self.now.children.items)) }
        ensures as_wide { IfOk result (λ l. length l.children.items ≡ length self.now.children.items) }
    {
        let children = share_all(alloc, &self.children)?;
        Ok(Level {
            count: self.count,
            children,
        })
    }

    pub(crate) fn replace_in(
        self,
        alloc: Global,
        at: usize,
        item: C::Item,
    ) -> Result<Level<C>, AllocError>
        requires right { IsLevel C.elements C.is_right C.width self.count self.children.items }
        requires within { at < length (flat C.elements C.is_right C.width self.children.items) }
        ensures { IfOk result (IsEdited C.elements C.is_right C.width (slice_set (flat C.elements C.is_right C.width self.children.items) at item) (length self.children.items)) }
    {
        let Level { count, children } = self;
        let opening = open(alloc, children, at)?;
        let chunk = opening.chunk.replace(alloc, opening.inside, item)?;
        let children = close(alloc, opening.others, opening.place, opening.width, chunk)?;
        Ok(Level { count, children })
    }

    pub(crate) fn insert_in(
        self,
        alloc: Global,
        at: usize,
        item: C::Item,
    ) -> Result<Level<C>, AllocError>
        requires right { IsLevel C.elements C.is_right C.width self.count self.children.items }
        requires within { at ≤ length (flat C.elements C.is_right C.width self.children.items) }
        requires some { 0 < self.count }
        requires small { length (flat C.elements C.is_right C.width self.children.items) < 2 ^ 32 }
        ensures { IfOk result (IsEdited C.elements C.is_right C.width (insert (flat C.elements C.is_right C.width self.children.items) at item) (length self.children.items + 1)) }
    {
        let Level { count, children } = self;
        let near = at.saturating_sub(1);
        let opening = open(alloc, children, near)?;
        let room = opening.inside + (at - near);
        let (chunk, more) = opening.chunk.insert(alloc, room, item)?;
        let children = close_two(
            alloc,
            opening.others,
            opening.place,
            opening.width,
            chunk,
            more,
        )?;
        let count = count + 1;
        Ok(Level { count, children })
    }

    pub(crate) fn remove_in(self, alloc: Global, at: usize) -> Result<Level<C>, AllocError>
        requires right { IsLevel C.elements C.is_right C.width self.count self.children.items }
        requires within { at < length (flat C.elements C.is_right C.width self.children.items) }
        ensures { IfOk result (IsEdited C.elements C.is_right C.width (remove (flat C.elements C.is_right C.width self.children.items) at) (length self.children.items)) }
    {
        let Level { count, children } = self;
        let opening = open(alloc, children, at)?;
        let chunk = opening.chunk.remove(alloc, opening.inside)?;
        let children = close(alloc, opening.others, opening.place, opening.width, chunk)?;
        let count = count - 1;
        Ok(Level { count, children })
    }

    pub(crate) fn front_in(self, alloc: Global, n: usize) -> Result<Level<C>, AllocError>
        requires right { IsLevel C.elements C.is_right C.width self.count self.children.items }
        requires within { n ≤ length (flat C.elements C.is_right C.width self.children.items) }
        ensures { IfOk result (IsEdited C.elements C.is_right C.width (take n (flat C.elements C.is_right C.width self.children.items)) (length self.children.items)) }
    {
        let Level { count, children } = self;
        if n == count {
            return Ok(Level { count, children });
        }
        let opening = open(alloc, children, n)?;
        let mut front = opening.others;
        front.truncate(opening.place);
        let last = opening.chunk.front(alloc, opening.inside)?;
        let children = join(alloc, front, alone(alloc, last)?)?;
        let count = n;
        Ok(Level { count, children })
    }

    pub(crate) fn back_in(self, alloc: Global, n: usize) -> Result<Level<C>, AllocError>
        requires right { IsLevel C.elements C.is_right C.width self.count self.children.items }
        requires within { n ≤ length (flat C.elements C.is_right C.width self.children.items) }
        ensures { IfOk result (IsEdited C.elements C.is_right C.width (drop n (flat C.elements C.is_right C.width self.children.items)) (length self.children.items)) }
    {
        let Level { count, children } = self;
        if n == count {
            let children = Vec::new(alloc);
            return Ok(Level { count: 0, children });
        }
        let opening = open(alloc, children, n)?;
        let mut others = opening.others;
        let back = others.split_off(opening.place)?;
        let first = opening.chunk.back(alloc, opening.inside)?;
        let children = join(alloc, alone(alloc, first)?, back)?;
        let count = count - n;
        Ok(Level { count, children })
    }

    /// The children of another behind its own.
    pub(crate) fn append(self, alloc: Global, other: Level<C>) -> Result<Level<C>, AllocError>
        requires right { IsLevel C.elements C.is_right C.width self.count self.children.items }
        requires other_right { IsLevel C.elements C.is_right C.width other.count other.children.items }
        requires small { length (flat C.elements C.is_right C.width self.children.items) + length (flat C.elements C.is_right C.width other.children.items) ≤ 2 ^ 32 }
        ensures edited { IfOk result (IsEdited C.elements C.is_right C.width (flat C.elements C.is_right C.width self.children.items ++ flat C.elements C.is_right C.width other.children.items)
            (length self.children.items + length other.children.items)) }
        ensures least { IfOk result (λ l. length self.children.items + length other.children.items ≤ length l.children.items + 1) }
    {
        let Level { count, children } = self;
        let Level {
            count: more,
            children: behind,
        } = other;
        let children = join(alloc, children, behind)?;
        let count = count + more;
        Ok(Level { count, children })
    }

    /// The level in two where it has too many children.
    fn halve(self) -> Result<(Level<C>, Option<Level<C>>), AllocError>
        requires right { IsLevel C.elements C.is_right C.width self.count self.children.items }
        requires few { length self.children.items ≤ 65 }
        ensures { IfOk result (MakesTwo (λ l. flat C.elements C.is_right C.width l.children.items) (IsInner C.elements C.is_right C.width) level_width (flat C.elements C.is_right C.width self.children.items)) }
    {
        let Level {
            count,
            mut children,
        } = self;
        if children.len() <= LIMIT {
            return Ok((Level { count, children }, None));
        }
        let more = children.split_off(LIMIT / 2)?;
        let behind = total(&more);
        let count = count - behind;
        Ok((
            Level { count, children },
            Some(Level {
                count: behind,
                children: more,
            }),
        ))
    }
}

impl<C: Chunk> Chunk for Level<C> {
    type Item = C::Item;

    ghost elements = { λ l. flat C.elements C.is_right C.width l.children.items };

    ghost is_right = { IsInner C.elements C.is_right C.width };

    ghost width = { level_width };

    fn of_items(alloc: Global, items: Vec<C::Item>) -> Result<Self, AllocError>
        requires { length items.items ≤ 64 }
        ensures { IfOk result (Makes (λ l. flat C.elements C.is_right C.width l.children.items) (IsInner C.elements C.is_right C.width) level_width items.items) }
    {
        let count = items.len();
        let children = alone(alloc, C::of_items(alloc, items)?)?;
        Ok(Level { count, children })
    }

    fn len(&self) -> usize {
        self.count
    }

    fn width(&self) -> usize {
        self.children.len()
    }

    fn get(&self, at: usize) -> &C::Item {
        self.get_in(at)
    }

    fn part(&self, at: usize) -> &[C::Item] {
        self.part_in(at)
    }

    fn copy(&self, alloc: Global) -> Result<Self, AllocError> {
        let level = self.copy_in(alloc)?;
        Ok(level)
    }

    fn replace(self, alloc: Global, at: usize, item: C::Item) -> Result<Self, AllocError> {
        let level = self.replace_in(alloc, at, item)?;
        Ok(level)
    }

    fn insert(
        self,
        alloc: Global,
        at: usize,
        item: C::Item,
    ) -> Result<(Self, Option<Self>), AllocError> {
        if self.count == 0 {
            let mut items = Vec::new(alloc);
            items.push(item)?;
            return Ok((Level::of_items(alloc, items)?, None));
        }
        let two = self.insert_in(alloc, at, item)?.halve()?;
        Ok(two)
    }

    fn remove(self, alloc: Global, at: usize) -> Result<Self, AllocError> {
        let level = self.remove_in(alloc, at)?;
        Ok(level)
    }

    fn front(self, alloc: Global, n: usize) -> Result<Self, AllocError> {
        let level = self.front_in(alloc, n)?;
        Ok(level)
    }

    fn back(self, alloc: Global, n: usize) -> Result<Self, AllocError> {
        let level = self.back_in(alloc, n)?;
        Ok(level)
    }

    fn merge(self, alloc: Global, other: Self) -> Result<Self, AllocError> {
        let level = self.append(alloc, other)?;
        Ok(level)
    }
}
