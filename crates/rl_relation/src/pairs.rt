//! Pairs, and the values that relations are.
ghost use Rattle.std.specs.Prelude.{◌≡◌, ◌∷◌, true, IfOk, IfSome, if◌then◌else◌, []};
ghost use Rattle.std.specs.Option.{option_copied};
ghost use Rattle.std.specs.List.{list_all};
ghost use Rattle.rl_value.specs.Plain.{tuple, plains_of};
ghost use Rattle.rl_value.specs.Order.{plain_cmp};
ghost use Rattle.rl_value.specs.Rising.{Rises};
ghost use Rattle.rl_value.specs.Built.{Builds};
ghost use Rattle.rl_access.specs.Rows.{is_row};
ghost use Rattle.rl_relation.specs.Pairs.{pair_of, is_pair, first_of, second_of, part_of, swapped, pairs_in, elements_in};

use rl_value::{BuildEnd, Opened, Value, tuple};
use std::alloc::{AllocError, Global};

/// A part of a pair.
#[derive(Clone, Copy, Debug, PartialEq, Eq)]
pub(crate) enum Side {
    First,
    Second,
}

/// The pairs of a relation.
#[tactic(auto, using(rl_value::specs::Plain::back))]
pub(crate) fn pairs_in(a: &Value) -> Option<&[Value]>
    ensures value { option_copied result ≡ pairs_in a.now }
    ensures pairs { IfSome result (λ ps. list_all is_pair ps.now ≡ true) }
    ensures rows { IfSome result (λ ps. list_all is_row ps.now ≡ true) }
    ensures rises { IfSome result (λ ps. Rises plain_cmp ps.now) }
{
    match a.open() {
        Opened::Set(items) => only_pairs(items),
        _ => None,
    }
}

// The values, where all are pairs.
#[tactic(auto, using(crate::proofs::PairLemmas::rows_of_pairs))]
fn only_pairs(items: &[Value]) -> Option<&[Value]>
    ensures pairs { IfSome result (λ ps. list_all is_pair ps.now ≡ true) }
    ensures rows { IfSome result (λ ps. list_all is_row ps.now ≡ true) }
    ensures same { IfSome result (λ ps. ps.now ≡ items.now) }
    ensures value { option_copied result ≡ (if list_all is_pair items.now then Some items.now else None) }
{
    if are_pairs(items) { Some(items) } else { None }
}

/// The elements of a set.
#[tactic(auto, using(rl_value::specs::Plain::back))]
pub(crate) fn elements_in(s: &Value) -> Option<&[Value]>
    ensures value { option_copied result ≡ elements_in s.now }
    ensures rises { IfSome result (λ xs. Rises plain_cmp xs.now) }
{
    match s.open() {
        Opened::Set(items) => Some(items),
        _ => None,
    }
}

fn are_pairs(items: &[Value]) -> bool
    ensures { result ≡ list_all is_pair items.now }
{
    items.iter().all(|item| is_pair(item))
}

fn is_pair(value: &Value) -> bool
    ensures { result ≡ is_pair value.now }
{
    match value.open() {
        Opened::Tuple(parts) => parts.len() == 2,
        _ => false,
    }
}

/// The first part of a pair.
pub(crate) fn first(pair: &Value) -> &Value
    ensures { result.now ≡ first_of pair.now }
{
    match pair.open() {
        Opened::Tuple([first, ..]) => first,
        _ => pair,
    }
}

/// The second part of a pair.
pub(crate) fn second(pair: &Value) -> &Value
    ensures { result.now ≡ second_of pair.now }
{
    match pair.open() {
        Opened::Tuple(parts) => second_or(parts, pair),
        _ => pair,
    }
}

fn second_or<'a>(parts: &'a [Value], pair: &'a Value) -> &'a Value
    requires { tuple (plains_of parts.now) ≡ pair.now }
    ensures { result.now ≡ second_of pair.now }
{
    if parts.len() >= 2 { &parts[1] } else { pair }
}

/// One part of a pair.
pub(crate) fn part(pair: &Value, side: Side) -> &Value
    ensures { result.now ≡ part_of side pair.now }
{
    match side {
        Side::First => first(pair),
        Side::Second => second(pair),
    }
}

fn two(alloc: Global, x: &Value, y: &Value) -> Result<Vec<Value>, AllocError>
    ensures { IfOk result (λ v. v.items ≡ x.now ∷ y.now ∷ []) }
{
    let mut parts = Vec::with_capacity(alloc, 2)?;
    parts.push(x.share()?)?;
    parts.push(y.share()?)?;
    Ok(parts)
}

pub(crate) fn pair(alloc: Global, x: &Value, y: &Value) -> Result<Value, BuildEnd>
    ensures { Builds (pair_of x.now y.now) result }
{
    let parts = two(alloc, x, y)?;
    tuple(alloc, parts)
}

/// A pair the other way round.
#[tactic(auto, using(crate::proofs::PairLemmas::swapped_pair, crate::proofs::PairLemmas::swapped_fits))]
pub(crate) fn swap(alloc: Global, old: &Value) -> Result<Value, AllocError>
    requires { is_pair old.now ≡ true }
    ensures { IfOk result (λ new. new ≡ swapped old.now) }
{
    let _size = old.size();
    let _height = old.height();
    match pair(alloc, second(old), first(old)) {
        Ok(new) => Ok(new),
        Err(BuildEnd::TooLarge) => unreachable!(),
        Err(BuildEnd::OutOfMemory) => Err(AllocError),
    }
}
