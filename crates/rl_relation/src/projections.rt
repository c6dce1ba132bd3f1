//! The domain, the range and the carrier of a relation.

ghost use Rattle.std.specs.Prelude.{◌≡◌, true, IfOk, map};
ghost use Rattle.std.specs.List.{list_all};
ghost use Rattle.rl_exception.specs.Answer.{Answers};
ghost use Rattle.rl_relation.specs.Pairs.{is_pair, first_of, second_of, swapped, parts_in};
ghost use Rattle.rl_relation.specs.Relations.{domain_of, range_of, carrier_of, invert_of};

use crate::pairs::{first, pairs_in, second, swap};
use rl_exception::{OpEnd, fitted_set, wrong_kind};
use rl_value::Value;
use std::alloc::{AllocError, Global};

/// The set of the first parts of a relation's pairs.
pub fn domain(alloc: Global, a: &Value) -> Result<Value, OpEnd>
    ensures { Answers (domain_of a.now) result }
{
    let Some(pairs) = pairs_in(a) else {
        return Err(wrong_kind(alloc));
    };
    let found = firsts(alloc, pairs)?;
    fitted_set(alloc, found)
}

pub(crate) fn firsts(alloc: Global, pairs: &[Value]) -> Result<Vec<Value>, AllocError>
    ensures { IfOk result (λ found. found.items ≡ map first_of pairs.now) }
{
    let mut found = Vec::with_capacity(alloc, pairs.len())?;
    for pair in pairs {
        found.push(first(pair).share()?)?;
    }
    Ok(found)
}

/// The set of the second parts of a relation's pairs.
pub fn range(alloc: Global, a: &Value) -> Result<Value, OpEnd>
    ensures { Answers (range_of a.now) result }
{
    let Some(pairs) = pairs_in(a) else {
        return Err(wrong_kind(alloc));
    };
    let found = seconds(alloc, pairs)?;
    fitted_set(alloc, found)
}

fn seconds(alloc: Global, pairs: &[Value]) -> Result<Vec<Value>, AllocError>
    ensures { IfOk result (λ found. found.items ≡ map second_of pairs.now) }
{
    let mut found = Vec::with_capacity(alloc, pairs.len())?;
    for pair in pairs {
        found.push(second(pair).share()?)?;
    }
    Ok(found)
}

/// The set of all parts of a relation's pairs.
pub fn carrier(alloc: Global, a: &Value) -> Result<Value, OpEnd>
    ensures { Answers (carrier_of a.now) result }
{
    let Some(pairs) = pairs_in(a) else {
        return Err(wrong_kind(alloc));
    };
    let found = parts(alloc, pairs)?;
    fitted_set(alloc, found)
}

pub(crate) fn parts(alloc: Global, pairs: &[Value]) -> Result<Vec<Value>, AllocError>
    ensures { IfOk result (λ found. found.items ≡ parts_in pairs.now) }
{
    let mut found = Vec::new(alloc);
    for pair in pairs {
        found.push(first(pair).share()?)?;
        found.push(second(pair).share()?)?;
    }
    Ok(found)
}

/// The relation with each pair the other way round.
pub fn invert(alloc: Global, a: &Value) -> Result<Value, OpEnd>
    ensures { Answers (invert_of a.now) result }
{
    let Some(pairs) = pairs_in(a) else {
        return Err(wrong_kind(alloc));
    };
    let found = swaps(alloc, pairs)?;
    fitted_set(alloc, found)
}

fn swaps(alloc: Global, pairs: &[Value]) -> Result<Vec<Value>, AllocError>
    requires { list_all is_pair pairs.now ≡ true }
    ensures { IfOk result (λ found. found.items ≡ map swapped pairs.now) }
{
    let mut found = Vec::with_capacity(alloc, pairs.len())?;
    for pair in pairs {
        found.push(swap(alloc, pair)?)?;
    }
    Ok(found)
}
