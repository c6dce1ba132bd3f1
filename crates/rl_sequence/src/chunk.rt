//! What the parts of a sequence have in common.

ghost use Rattle.std.specs.Prelude.{◌≡◌, ◌<◌, ◌≤◌, ◌+◌, ◌^◌, ℕ, IfOk, List, [], ◌∷◌, ◌++◌, length, take, drop, slice_get, slice_set, Some};
ghost use Rattle.std.specs.List.{insert, remove};
ghost use Rattle.rl_sequence.specs.Parts.{Copies, Makes, MakesTwo, Merges, IsPart};

use std::alloc::{AllocError, Global};

/// What can be shared in place of a copy.
pub trait Share: Drop {
    /// The same once more.
    fn share(&self) -> Result<Self, AllocError>
        ensures { IfOk result (λ v. v ≡ self.now) };
}

/// A part of a sequence: some elements, one after another. An edit takes it by value, and gives the edited one.
pub(crate) trait Chunk: Drop {
    type Item: Share;

    ghost elements: { Self → List Self.Item };

    ghost is_right: { Self → Type 0 };

    ghost width: { Self → ℕ };

    /// A part of these elements.
    fn of_items(alloc: Global, items: Vec<Self::Item>) -> Result<Self, AllocError>
        requires { length items.items ≤ 64 }
        ensures { IfOk result (Makes elements is_right width items.items) };

    fn len(&self) -> usize
        requires { is_right self.now }
        ensures value { result ≡ length (elements self.now) }
        ensures small { result ≤ 2 ^ 32 };

    /// How many items or children the part itself has.
    fn width(&self) -> usize
        requires { is_right self.now }
        ensures value { result ≡ width self.now }
        ensures few { result ≤ 64 };

    fn get(&self, at: usize) -> &Self::Item
        requires right { is_right self.now }
        requires within { at < length (elements self.now) }
        ensures { slice_get (elements self.now) at ≡ Some result.now };

    /// The elements from this place on that lie side by side, one at least.
    fn part(&self, at: usize) -> &[Self::Item]
        requires right { is_right self.now }
        requires within { at < length (elements self.now) }
        ensures { IsPart (elements self.now) at result.now };

    fn copy(&self, alloc: Global) -> Result<Self, AllocError>
        requires { is_right self.now }
        ensures { IfOk result (Copies elements is_right width self.now) };

    fn replace(self, alloc: Global, at: usize, item: Self::Item) -> Result<Self, AllocError>
        requires right { is_right self }
        requires within { at < length (elements self) }
        ensures { IfOk result (Makes elements is_right width (slice_set (elements self) at item)) };

    /// The part with one more element, and what is behind it where it became too wide.
    fn insert(
        self,
        alloc: Global,
        at: usize,
        item: Self::Item,
    ) -> Result<(Self, Option<Self>), AllocError>
        requires right { is_right self }
        requires within { at ≤ length (elements self) }
        requires small { length (elements self) < 2 ^ 32 }
        ensures { IfOk result (MakesTwo elements is_right width (insert (elements self) at item)) };

    fn remove(self, alloc: Global, at: usize) -> Result<Self, AllocError>
        requires right { is_right self }
        requires within { at < length (elements self) }
        ensures { IfOk result (Makes elements is_right width (remove (elements self) at)) };

    /// The first elements alone.
    fn front(self, alloc: Global, n: usize) -> Result<Self, AllocError>
        requires right { is_right self }
        requires within { n ≤ length (elements self) }
        ensures { IfOk result (Makes elements is_right width (take n (elements self))) };

    /// All but the first elements.
    fn back(self, alloc: Global, n: usize) -> Result<Self, AllocError>
        requires right { is_right self }
        requires within { n ≤ length (elements self) }
        ensures { IfOk result (Makes elements is_right width (drop n (elements self))) };

    /// This part and another behind it in one.
    fn merge(self, alloc: Global, other: Self) -> Result<Self, AllocError>
        requires right { is_right self }
        requires other_right { is_right other }
        requires some { 0 < length (elements self) }
        requires other_some { 0 < length (elements other) }
        requires small { length (elements self) + length (elements other) ≤ 2 ^ 32 }
        requires fits { width self + width other ≤ 64 }
        ensures { IfOk result (Merges elements is_right width self other) };
}
