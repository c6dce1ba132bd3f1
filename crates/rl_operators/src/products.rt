//! The operator `*`.
ghost use Rattle.std.specs.Prelude.{◌≡◌, ◌≤◌, ◌^◌, ◌*◌, ◌++◌, ◌∷◌, [], true, false, length, map, IfOk, OnOk, Err};
ghost use Rattle.std.specs.List.{list_all};
ghost use Rattle.rl_value.specs.Plain.{set, plains_of};
ghost use Rattle.rl_value.specs.Opened.{IsInOrder};
ghost use Rattle.rl_value.specs.Built.{Builds};
ghost use Rattle.rl_value.specs.declared.build_end.BuildEnd.TheVariants.{TooLarge};
ghost use Rattle.rl_exception.specs.Answer.{fits, fitting, Answers};
ghost use Rattle.rl_operators.specs.Sets.{set_of, pair_of, all_pairs};
ghost use Rattle.rl_operators.specs.Operators.{multiply_of};

use crate::arithmetic::number;
use rl_exception::{OpEnd, fitted_set, too_large, unbuilt, wrong_kind};
use rl_value::{BuildEnd, MAX_SIZE, Opened, Value, tuple};
use std::alloc::{AllocError, Global};

const MAX_PAIRS: usize = MAX_SIZE as usize / 3;

fn two(alloc: Global, x: &Value, y: &Value) -> Result<Vec<Value>, AllocError>
    ensures { IfOk result (λ v. v.items ≡ x.now ∷ y.now ∷ []) }
{
    let mut parts = Vec::with_capacity(alloc, 2)?;
    parts.push(x.share()?)?;
    parts.push(y.share()?)?;
    Ok(parts)
}

fn pair(alloc: Global, x: &Value, y: &Value) -> Result<Value, BuildEnd>
    ensures { Builds (pair_of x.now y.now) result }
{
    let parts = two(alloc, x, y)?;
    tuple(alloc, parts)
}

// Adds the pairs of one value with each of these.
fn add_pairs(alloc: Global, pairs: &mut Vec<Value>, x: &Value, ys: &[Value]) -> Result<(), BuildEnd>
    ensures ok { OnOk result (pairs.new.items ≡ pairs.old.items ++ map (pair_of x.now) ys.now) }
    ensures large { result ≡ Err TooLarge → list_all fits (map (pair_of x.now) ys.now) ≡ false }
{
    for y in ys {
        match pair(alloc, x, y) {
            Ok(pair) => pairs.push(pair)?,
            Err(end) => return Err(end),
        }
    }
    Ok(())
}

// The pairs of each of one list with each of another.
fn pairs(alloc: Global, xs: &[Value], ys: &[Value]) -> Result<Vec<Value>, BuildEnd>
    ensures ok { IfOk result (λ v. v.items ≡ all_pairs xs.now ys.now) }
    ensures large { result ≡ Err TooLarge → list_all fits (all_pairs xs.now ys.now) ≡ false }
{
    let mut pairs = Vec::new(alloc);
    for x in xs {
        match add_pairs(alloc, &mut pairs, x, ys) {
            Ok(()) => {}
            Err(end) => return Err(end),
        }
    }
    Ok(pairs)
}

// Whether two sets have more pairs than a value can hold: each has a size of at least 3, and no two are equal.
fn has_too_many_pairs(a: &[Value], b: &[Value]) -> bool
    ensures { result ≡ true → 2 ^ 24 ≤ 3 * (length a.now * length b.now) }
{
    a.len().saturating_mul(b.len()) > MAX_PAIRS
}

fn multiply_sets(alloc: Global, a: &[Value], b: &[Value]) -> Result<Value, OpEnd>
    requires a { IsInOrder (set (plains_of a.now)) }
    requires b { IsInOrder (set (plains_of b.now)) }
    ensures { Answers (fitting (set_of (all_pairs a.now b.now))) result }
{
    if has_too_many_pairs(a, b) {
        return Err(too_large(alloc));
    }
    match pairs(alloc, a, b) {
        Ok(pairs) => fitted_set(alloc, pairs),
        Err(end) => Err(unbuilt(alloc, end)),
    }
}

#[tactic(auto, using(rl_value::specs::Plain::back))]
pub(crate) fn multiply(alloc: Global, a: &Value, b: &Value) -> Result<Value, OpEnd>
    ensures { Answers (multiply_of a.now b.now) result }
{
    match (a.open(), b.open()) {
        (Opened::Int(m), Opened::Int(n)) => number(alloc, m.checked_mul(n)),
        (Opened::Set(s), Opened::Set(t)) => multiply_sets(alloc, s, t),
        _ => Err(wrong_kind(alloc)),
    }
}
