//! The pairs that are joined by paths of a relation.

ghost use Rattle.std.specs.Prelude.{◌≡◌, ◌⊎◌, ◌++◌, ◌∷◌, [], true, false, not, map, IfOk, OnOk, Err};
ghost use Rattle.std.specs.List.{list_all};
ghost use Rattle.std.specs.BTreeSet.{contains};
ghost use Rattle.rl_value.specs.Plain.{Plain};
ghost use Rattle.rl_value.specs.Order.{plain_cmp};
ghost use Rattle.rl_value.specs.Rising.{In, Rises};
ghost use Rattle.rl_value.specs.declared.build_end.BuildEnd.TheVariants.{TooLarge};
ghost use Rattle.rl_exception.specs.Answer.{fits, fitting, Answers};
ghost use Rattle.rl_access.specs.Rows.{is_row};
ghost use Rattle.rl_relation.specs.Pairs.{is_pair, first_of, pair_of, set_of};
ghost use Rattle.rl_relation.specs.Closures.{Leads, Covers, GrowsBy, HasSame, closure, loops, closure_of, reflexive_closure_of};

use crate::composition::add_pairs;
use crate::pairs::{pair, pairs_in};
use crate::projections::{firsts, parts};
use rl_access::rests;
use rl_exception::{OpEnd, fitted_set, unbuilt, wrong_kind};
use rl_value::{BuildEnd, Value};
use std::alloc::{AllocError, Global};
use std::collections::BTreeSet;

/// The pairs of an `x` and a `z` that a path of one pair or more joins.
pub fn closure(alloc: Global, a: &Value) -> Result<Value, OpEnd>
    ensures { Answers (closure_of a.now) result }
{
    let Some(pairs) = pairs_in(a) else {
        return Err(wrong_kind(alloc));
    };
    closure_value(alloc, pairs)
}

fn closure_value(alloc: Global, pairs: &[Value]) -> Result<Value, OpEnd>
    requires pairs { list_all is_pair pairs.now ≡ true }
    requires rows { list_all is_row pairs.now ≡ true }
    requires rises { Rises plain_cmp pairs.now }
    ensures { Answers (fitting (set_of (closure pairs.now))) result }
{
    match joined_pairs(alloc, pairs) {
        Ok(found) => fitted_set(alloc, found),
        Err(end) => Err(unbuilt(alloc, end)),
    }
}

/// The closure, and each part of a pair with itself.
pub fn reflexive_closure(alloc: Global, a: &Value) -> Result<Value, OpEnd>
    ensures { Answers (reflexive_closure_of a.now) result }
{
    let Some(pairs) = pairs_in(a) else {
        return Err(wrong_kind(alloc));
    };
    reflexive_closure_value(alloc, pairs)
}

fn reflexive_closure_value(alloc: Global, pairs: &[Value]) -> Result<Value, OpEnd>
    requires pairs { list_all is_pair pairs.now ≡ true }
    requires rows { list_all is_row pairs.now ≡ true }
    requires rises { Rises plain_cmp pairs.now }
    ensures { Answers (fitting (set_of (closure pairs.now ++ loops pairs.now))) result }
{
    match with_loops(alloc, pairs) {
        Ok(found) => fitted_set(alloc, found),
        Err(end) => Err(unbuilt(alloc, end)),
    }
}

fn with_loops(alloc: Global, pairs: &[Value]) -> Result<Vec<Value>, BuildEnd>
    requires pairs { list_all is_pair pairs.now ≡ true }
    requires rows { list_all is_row pairs.now ≡ true }
    requires rises { Rises plain_cmp pairs.now }
    ensures same { IfOk result (λ found. HasSame found.items (closure pairs.now ++ loops pairs.now)) }
    ensures large { result ≡ Err TooLarge → list_all fits (closure pairs.now ++ loops pairs.now) ≡ false }
{
    match joined_pairs(alloc, pairs) {
        Ok(found) => looped(alloc, found, pairs),
        Err(end) => Err(end),
    }
}

// Adds each part of a pair with itself.
fn looped(alloc: Global, found: Vec<Value>, pairs: &[Value]) -> Result<Vec<Value>, BuildEnd>
    ensures ok { IfOk result (λ all. all.items ≡ found.items ++ loops pairs.now) }
    ensures large { result ≡ Err TooLarge → list_all fits (loops pairs.now) ≡ false }
{
    let mut all = found;
    let values = parts(alloc, pairs)?;
    match add_loops(alloc, &mut all, &values) {
        Ok(()) => Ok(all),
        Err(end) => Err(end),
    }
}

// Adds each value with itself.
fn add_loops(alloc: Global, found: &mut Vec<Value>, values: &[Value]) -> Result<(), BuildEnd>
    ensures ok { OnOk result (found.new.items ≡ found.old.items ++ map (λ x. pair_of x x) values.now) }
    ensures large { result ≡ Err TooLarge → list_all fits (map (λ x. pair_of x x) values.now) ≡ false }
{
    for value in values {
        match pair(alloc, value, value) {
            Ok(made) => found.push(made)?,
            Err(end) => return Err(end),
        }
    }
    Ok(())
}

// The pairs that paths join, perhaps with repeats.
fn joined_pairs(alloc: Global, pairs: &[Value]) -> Result<Vec<Value>, BuildEnd>
    requires pairs { list_all is_pair pairs.now ≡ true }
    requires rows { list_all is_row pairs.now ≡ true }
    requires rises { Rises plain_cmp pairs.now }
    ensures same { IfOk result (λ found. HasSame found.items (closure pairs.now)) }
    ensures large { result ≡ Err TooLarge → list_all fits (closure pairs.now) ≡ false }
{
    let mut found = Vec::new(alloc);
    let starts = starts(alloc, pairs)?;
    for start in &starts {
        match add_reached(alloc, &mut found, pairs, start) {
            Ok(()) => {}
            Err(end) => return Err(end),
        }
    }
    Ok(found)
}

// The first parts of these rising pairs, each once.
fn starts(alloc: Global, pairs: &[Value]) -> Result<Vec<Value>, AllocError>
    ensures { IfOk result (λ starts. (x : Plain) → In x (map first_of pairs.now) → In x starts.items) }
{
    let mut starts = firsts(alloc, pairs)?;
    starts.dedup();
    Ok(starts)
}

// Adds the pairs of `start` with all that paths lead to from it.
fn add_reached(
    alloc: Global,
    found: &mut Vec<Value>,
    pairs: &[Value],
    start: &Value,
) -> Result<(), BuildEnd>
    requires rows { list_all is_row pairs.now ≡ true }
    requires rises { Rises plain_cmp pairs.now }
    ensures reached { OnOk result ((q : Plain) → In q found.new.items → In q found.old.items ⊎ ((z : Plain) × (q ≡ pair_of start.now z) × Leads pairs.now start.now z)) }
    ensures whole { OnOk result ((z : Plain) → Leads pairs.now start.now z → In (pair_of start.now z) found.new.items) }
    ensures kept { OnOk result ((q : Plain) → In q found.old.items → In q found.new.items) }
    ensures large { result ≡ Err TooLarge → (z : Plain) × Leads pairs.now start.now z × (fits (pair_of start.now z) ≡ false) }
{
    let ends = leads(alloc, pairs, start)?;
    add_pairs(alloc, found, start, &ends)
}

// All that paths of one pair or more lead to from `start`.
fn leads(alloc: Global, pairs: &[Value], start: &Value) -> Result<Vec<Value>, AllocError>
    requires rises { Rises plain_cmp pairs.now }
    requires rows { list_all is_row pairs.now ≡ true }
    ensures reached { IfOk result (λ found. (z : Plain) → In z found.items → Leads pairs.now start.now z) }
    ensures whole { IfOk result (λ found. (z : Plain) → Leads pairs.now start.now z → In z found.items) }
{
    let mut found = Vec::new(alloc);
    let mut seen = BTreeSet::new(alloc);
    let first = rests(alloc, pairs, start)?;
    add_all(&mut found, &mut seen, &first)?;
    for next in 0..usize::MAX {
        if next >= found.len() {
            return Ok(found);
        }
        let ends = rests(alloc, pairs, &found[next])?;
        add_all(&mut found, &mut seen, &ends)?;
    }
    Ok(found)
}

// Adds those of the values that were not seen.
fn add_all(
    found: &mut Vec<Value>,
    seen: &mut BTreeSet<Value>,
    values: &[Value],
) -> Result<(), AllocError>
    requires { Covers seen.old found.old.items }
    ensures covered { OnOk result (Covers seen.new found.new.items) }
    ensures has { OnOk result ((z : Plain) → In z values.now → In z found.new.items) }
    ensures grown { OnOk result (GrowsBy values.now found.old.items found.new.items) }
{
    for value in values {
        add(found, seen, value)?;
    }
    Ok(())
}

// Adds a value, unless it was seen.
fn add(found: &mut Vec<Value>, seen: &mut BTreeSet<Value>, value: &Value) -> Result<(), AllocError>
    requires { Covers seen.old found.old.items }
    ensures covered { OnOk result (Covers seen.new found.new.items) }
    ensures has { OnOk result (In value.now found.new.items) }
    ensures grown { OnOk result ((found.new.items ≡ found.old.items) ⊎ (found.new.items ≡ found.old.items ++ (value.now ∷ []))) }
{
    if is_new(seen, value)? {
        found.push(value.share()?)?;
    }
    Ok(())
}

// Whether a value was not seen yet; now it is.
fn is_new(seen: &mut BTreeSet<Value>, value: &Value) -> Result<bool, AllocError>
    ensures new { IfOk result (λ new. new ≡ not (contains plain_cmp seen.old value.now)) }
    ensures kept { OnOk result ((q : Plain) → contains plain_cmp seen.new q ≡ true → (contains plain_cmp seen.old q ≡ true) ⊎ (q ≡ value.now)) }
{
    let new = seen.insert(value.share()?)?;
    Ok(new)
}
