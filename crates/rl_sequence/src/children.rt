//! The children of a level.

ghost use Rattle.std.specs.Prelude.{◌≡◌, ◌<◌, ◌≤◌, ◌+◌, ◌^◌, IfOk, List, [], ◌∷◌, ◌++◌, length, take, drop};
ghost use Rattle.std.specs.List.{All};
ghost use Rattle.rl_sequence.specs.Parts.{flat, IsChild, AreAlike, AreChildren, AreSome, Copies, IsGap, IsOpening, Joins, Meets, Merges, elements_if, IsRightIf};

use crate::chunk::Chunk;
use crate::leaf::LIMIT;
use std::alloc::{AllocError, Global};
use std::rc::Rc;

/// A part below a level, which may have other holders, with its number of elements.
#[derive(Debug, Drop)]
pub(crate) struct Child<C> {
    pub(crate) count: usize,
    pub(crate) chunk: Rc<C>,
}

/// Where an element stands: in which child, and where inside it.
#[derive(Clone, Copy)]
pub(crate) struct Place {
    pub(crate) child: usize,
    pub(crate) inside: usize,
}

/// The place of an element.
#[tactic(auto, using(crate::proofs::FlatLemmas::take_more, crate::proofs::FlatLemmas::within_some, crate::proofs::FlatLemmas::length_take))]
pub(crate) fn find<C: Chunk>(children: &[Child<C>], at: usize) -> Place
    requires right { All (IsChild C.elements C.is_right C.width) children.now }
    requires within { at < length (flat C.elements C.is_right C.width children.now) }
    ensures child { result.child < length children.now }
    ensures before { length (flat C.elements C.is_right C.width (take result.child children.now)) + result.inside ≡ at }
    ensures inside { at < length (flat C.elements C.is_right C.width (take (result.child + 1) children.now)) }
{
    let mut child = 0;
    let mut inside = at;
    loop {
        let count = children[child].count;
        if inside < count {
            return Place { child, inside };
        }
        inside -= count;
        child += 1;
    }
}

/// How many elements the children have.
#[tactic(auto, using(crate::proofs::FlatLemmas::take_more, crate::proofs::FlatLemmas::within_some, crate::proofs::FlatLemmas::length_take))]
pub(crate) fn total<C: Chunk>(children: &[Child<C>]) -> usize
    requires right { All (IsChild C.elements C.is_right C.width) children.now }
    requires small { length (flat C.elements C.is_right C.width children.now) ≤ 2 ^ 32 }
    ensures { result ≡ length (flat C.elements C.is_right C.width children.now) }
{
    let mut count = 0;
    for child in children {
        count += child.count;
    }
    count
}

/// The part itself where it has no other holder, and else a copy.
fn owned<C: Chunk>(alloc: Global, chunk: Rc<C>) -> Result<C, AllocError>
    requires { C.is_right chunk.value }
    ensures { IfOk result (Copies C.elements C.is_right C.width chunk.value) }
{
    match Rc::try_unwrap(chunk) {
        Ok(chunk) => Ok(chunk),
        Err(shared) => shared.copy(alloc),
    }
}

/// The same children again.
pub(crate) fn share_all<C: Chunk>(
    alloc: Global,
    children: &[Child<C>],
) -> Result<Vec<Child<C>>, AllocError>
    requires { All (IsChild C.elements C.is_right C.width) children.now }
    ensures { IfOk result (λ v. AreAlike C.elements C.is_right C.width children.now v.items) }
{
    let mut shared = Vec::with_capacity(alloc, children.len() + 1)?;
    for child in children {
        shared.push(Child {
            count: child.count,
            chunk: child.chunk.clone()?,
        })?;
    }
    Ok(shared)
}

/// A part alone, and nothing where it is empty.
pub(crate) fn alone<C: Chunk>(alloc: Global, chunk: C) -> Result<Vec<Child<C>>, AllocError>
    requires { C.is_right chunk }
    ensures { IfOk result (λ v. AreSome C.elements C.is_right C.width (C.elements chunk) 1 v.items) }
{
    let mut children = Vec::new(alloc);
    let count = chunk.len();
    if count > 0 {
        let chunk = Rc::new(alloc, chunk)?;
        children.push(Child { count, chunk })?;
    }
    Ok(children)
}

// Two children in one.
fn merged<C: Chunk>(
    alloc: Global,
    first: Child<C>,
    second: Child<C>,
) -> Result<Child<C>, AllocError>
    requires first { IsChild C.elements C.is_right C.width first }
    requires second { IsChild C.elements C.is_right C.width second }
    requires small { first.count + second.count ≤ 2 ^ 32 }
    requires fits { C.width first.chunk.value + C.width second.chunk.value ≤ 64 }
    ensures right { IfOk result (IsChild C.elements C.is_right C.width) }
    ensures merges { IfOk result (λ k. Merges C.elements C.is_right C.width first.chunk.value second.chunk.value k.chunk.value) }
{
    let count = first.count + second.count;
    let front = owned(alloc, first.chunk)?;
    let back = owned(alloc, second.chunk)?;
    let chunk = Rc::new(alloc, front.merge(alloc, back)?)?;
    Ok(Child { count, chunk })
}

// The children with two more, which become one where they fit.
fn push_two<C: Chunk>(
    alloc: Global,
    front: Vec<Child<C>>,
    last: Child<C>,
    first: Child<C>,
) -> Result<Vec<Child<C>>, AllocError>
    requires last { IsChild C.elements C.is_right C.width last }
    requires first { IsChild C.elements C.is_right C.width first }
    requires small { last.count + first.count ≤ 2 ^ 32 }
    ensures { IfOk result (λ v. Meets C.elements C.is_right C.width front.items last first v.items) }
{
    let mut front = front;
    if last.chunk.width() + first.chunk.width() <= LIMIT {
        let one = merged(alloc, last, first)?;
        front.push(one)?;
        return Ok(front);
    }
    front.push(last)?;
    front.push(first)?;
    Ok(front)
}

/// The children of both, where the last and the first become one if they fit.
pub(crate) fn join<C: Chunk>(
    alloc: Global,
    front: Vec<Child<C>>,
    back: Vec<Child<C>>,
) -> Result<Vec<Child<C>>, AllocError>
    requires front { AreChildren C.elements C.is_right C.width front.items }
    requires back { AreChildren C.elements C.is_right C.width back.items }
    requires small { length (flat C.elements C.is_right C.width front.items) + length (flat C.elements C.is_right C.width back.items) ≤ 2 ^ 32 }
    ensures { IfOk result (λ v. Joins C.elements C.is_right C.width front.items back.items v.items) }
{
    let mut front = front;
    let mut back = back;
    if back.is_empty() {
        return Ok(front);
    }
    match front.pop() {
        None => Ok(back),
        Some(last) => {
            let first = back.remove(0);
            let mut joined = push_two(alloc, front, last, first)?;
            joined.append(&mut back)?;
            Ok(joined)
        }
    }
}

/// A child taken out, with its width, and the others.
#[derive(Drop)]
pub(crate) struct Opening<C> {
    pub(crate) place: usize,
    pub(crate) inside: usize,
    pub(crate) width: usize,
    pub(crate) chunk: C,
    pub(crate) others: Vec<Child<C>>,
}

/// Takes out the child with the element at this place.
pub(crate) fn open<C: Chunk>(
    alloc: Global,
    children: Vec<Child<C>>,
    at: usize,
) -> Result<Opening<C>, AllocError>
    requires children { AreChildren C.elements C.is_right C.width children.items }
    requires within { at < length (flat C.elements C.is_right C.width children.items) }
    ensures { IfOk result (λ o. IsOpening C.elements C.is_right C.width children.items at o.place o.inside o.width o.chunk o.others.items) }
{
    let mut others = children;
    let Place {
        child: place,
        inside,
    } = find(&others, at);
    let child = others.remove(place);
    let width = child.chunk.width();
    let chunk = owned(alloc, child.chunk)?;
    Ok(Opening {
        place,
        inside,
        width,
        chunk,
        others,
    })
}

// The children with some more at this place.
fn rejoin<C: Chunk>(
    alloc: Global,
    others: Vec<Child<C>>,
    place: usize,
    middle: Vec<Child<C>>,
) -> Result<Vec<Child<C>>, AllocError>
    requires front { AreChildren C.elements C.is_right C.width (take place others.items) }
    requires back { AreChildren C.elements C.is_right C.width (drop place others.items) }
    requires middle { AreChildren C.elements C.is_right C.width middle.items }
    requires within { place ≤ length others.items }
    requires small { length (flat C.elements C.is_right C.width others.items) + length (flat C.elements C.is_right C.width middle.items) ≤ 2 ^ 32 }
    ensures { IfOk result (λ v. AreSome C.elements C.is_right C.width (flat C.elements C.is_right C.width (take place others.items)
        ++ (flat C.elements C.is_right C.width middle.items ++ flat C.elements C.is_right C.width (drop place others.items)))
        (length others.items + length middle.items) v.items) }
{
    let mut front = others;
    let back = front.split_off(place)?;
    let front = join(alloc, front, middle)?;
    join(alloc, front, back)
}

/// The children with this part in the gap, where one of this width was.
pub(crate) fn close<C: Chunk>(
    alloc: Global,
    others: Vec<Child<C>>,
    place: usize,
    width: usize,
    chunk: C,
) -> Result<Vec<Child<C>>, AllocError>
    requires gap { IsGap C.elements C.is_right C.width place width others.items }
    requires right { C.is_right chunk }
    requires small { length (flat C.elements C.is_right C.width others.items) + length (C.elements chunk) ≤ 2 ^ 32 }
    ensures { IfOk result (λ v. AreSome C.elements C.is_right C.width (flat C.elements C.is_right C.width (take place others.items)
        ++ (C.elements chunk ++ flat C.elements C.is_right C.width (drop place others.items)))
        (length others.items + 1) v.items) }
{
    let count = chunk.len();
    if count > 0 && width <= chunk.width() {
        let mut children = others;
        let chunk = Rc::new(alloc, chunk)?;
        children.insert(place, Child { count, chunk })?;
        return Ok(children);
    }
    let middle = alone(alloc, chunk)?;
    let children = rejoin(alloc, others, place, middle)?;
    Ok(children)
}

/// The same with what came out of the part.
pub(crate) fn close_two<C: Chunk>(
    alloc: Global,
    others: Vec<Child<C>>,
    place: usize,
    width: usize,
    chunk: C,
    more: Option<C>,
) -> Result<Vec<Child<C>>, AllocError>
    requires gap { IsGap C.elements C.is_right C.width place width others.items }
    requires right { C.is_right chunk }
    requires more_right { IsRightIf C.elements C.is_right C.width more }
    requires small { length (flat C.elements C.is_right C.width others.items) + length (C.elements chunk ++ elements_if C.elements C.is_right C.width more) ≤ 2 ^ 32 }
    ensures { IfOk result (λ v. AreSome C.elements C.is_right C.width (flat C.elements C.is_right C.width (take place others.items)
        ++ ((C.elements chunk ++ elements_if C.elements C.is_right C.width more) ++ flat C.elements C.is_right C.width (drop place others.items)))
        (length others.items + 2) v.items) }
{
    match more {
        None => {
            let children = close(alloc, others, place, width, chunk)?;
            Ok(children)
        }
        Some(more) => {
            let middle = join(alloc, alone(alloc, chunk)?, alone(alloc, more)?)?;
            let children = rejoin(alloc, others, place, middle)?;
            Ok(children)
        }
    }
}
