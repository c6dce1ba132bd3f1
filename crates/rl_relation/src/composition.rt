//! Composition of relations.

ghost use Rattle.std.specs.Prelude.{◌≡◌, ◌++◌, true, false, map, IfOk, OnOk, Err};
ghost use Rattle.std.specs.List.{list_all};
ghost use Rattle.rl_value.specs.Order.{plain_cmp};
ghost use Rattle.rl_value.specs.Rising.{Rises};
ghost use Rattle.rl_value.specs.declared.build_end.BuildEnd.TheVariants.{TooLarge};
ghost use Rattle.rl_exception.specs.Answer.{fits, fitting, Answers};
ghost use Rattle.rl_access.specs.Rows.{is_row};
ghost use Rattle.rl_relation.specs.Pairs.{pair_of, set_of, joined, joined_with};
ghost use Rattle.rl_relation.specs.Relations.{compose_of};

use crate::pairs::{first, pair, pairs_in, second};
use rl_access::rests;
use rl_exception::{OpEnd, fitted_set, unbuilt, wrong_kind};
use rl_value::{BuildEnd, Value};
use std::alloc::Global;

/// The pairs of an `x` and a `z` for which there is a `y` with `x` and `y` in the first relation and `y`
/// and `z` in the second.
pub fn compose(alloc: Global, a: &Value, b: &Value) -> Result<Value, OpEnd>
    ensures { Answers (compose_of a.now b.now) result }
{
    let Some(left) = pairs_in(a) else {
        return Err(wrong_kind(alloc));
    };
    let Some(right) = pairs_in(b) else {
        return Err(wrong_kind(alloc));
    };
    compose_pairs(alloc, left, right)
}

fn compose_pairs(alloc: Global, left: &[Value], right: &[Value]) -> Result<Value, OpEnd>
    requires rows { list_all is_row right.now ≡ true }
    requires rises { Rises plain_cmp right.now }
    ensures { Answers (fitting (set_of (joined left.now right.now))) result }
{
    match joined(alloc, left, right) {
        Ok(pairs) => fitted_set(alloc, pairs),
        Err(end) => Err(unbuilt(alloc, end)),
    }
}

fn joined(alloc: Global, left: &[Value], right: &[Value]) -> Result<Vec<Value>, BuildEnd>
    requires rows { list_all is_row right.now ≡ true }
    requires rises { Rises plain_cmp right.now }
    ensures ok { IfOk result (λ found. found.items ≡ joined left.now right.now) }
    ensures large { result ≡ Err TooLarge → list_all fits (joined left.now right.now) ≡ false }
{
    let mut found = Vec::new(alloc);
    for pair in left {
        match join(alloc, &mut found, pair, right) {
            Ok(()) => {}
            Err(end) => return Err(end),
        }
    }
    Ok(found)
}

// Adds what one pair gives with those that begin with its second part.
fn join(
    alloc: Global,
    found: &mut Vec<Value>,
    pair: &Value,
    right: &[Value],
) -> Result<(), BuildEnd>
    requires rows { list_all is_row right.now ≡ true }
    requires rises { Rises plain_cmp right.now }
    ensures ok { OnOk result (found.new.items ≡ found.old.items ++ joined_with right.now pair.now) }
    ensures large { result ≡ Err TooLarge → list_all fits (joined_with right.now pair.now) ≡ false }
{
    let ends = rests(alloc, right, second(pair))?;
    add_pairs(alloc, found, first(pair), &ends)
}

/// Adds the pairs of one value with each of these.
pub(crate) fn add_pairs(
    alloc: Global,
    pairs: &mut Vec<Value>,
    x: &Value,
    ys: &[Value],
) -> Result<(), BuildEnd>
    ensures ok { OnOk result (pairs.new.items ≡ pairs.old.items ++ map (pair_of x.now) ys.now) }
    ensures large { result ≡ Err TooLarge → list_all fits (map (pair_of x.now) ys.now) ≡ false }
{
    for y in ys {
        match pair(alloc, x, y) {
            Ok(pair) => pairs.push(pair)?,
            Err(end) => return Err(end),
        }
    }
    Ok(())
}
