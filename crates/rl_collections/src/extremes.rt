//! max and min.

ghost use Rattle.std.specs.Prelude.{◌≡◌, fold};
ghost use Rattle.std.specs.Option.{option_copied};
ghost use Rattle.rl_value.specs.Order.{plain_cmp};
ghost use Rattle.rl_value.specs.Rising.{Rises};
ghost use Rattle.rl_exception.specs.Answer.{Answers};
ghost use Rattle.rl_exception.specs.Exceptions.{empty_list, empty_set};
ghost use Rattle.rl_arguments.specs.Arguments.{given_or};
ghost use Rattle.rl_collections.specs.Extremes.{larger, smaller, greatest, least, max_of, min_of};

use rl_exception::{OpEnd, empty_list, empty_set, wrong_kind};
use rl_value::{Opened, Value};
use std::alloc::Global;
use std::cmp::Ordering;

/// The greatest element of a list or a set.
#[tactic(auto, using(rl_value::specs::Plain::back))]
pub fn max(alloc: Global, v: &Value) -> Result<Value, OpEnd>
    ensures { Answers (max_of v.now) result }
{
    match v.open() {
        Opened::List(items) => list_max(alloc, items),
        Opened::Set(items) => set_max(alloc, items),
        _ => Err(wrong_kind(alloc)),
    }
}

/// The least element of a list or a set.
#[tactic(auto, using(rl_value::specs::Plain::back))]
pub fn min(alloc: Global, v: &Value) -> Result<Value, OpEnd>
    ensures { Answers (min_of v.now) result }
{
    match v.open() {
        Opened::List(items) => list_min(alloc, items),
        Opened::Set(items) => set_min(alloc, items),
        _ => Err(wrong_kind(alloc)),
    }
}

fn list_max(alloc: Global, items: &[Value]) -> Result<Value, OpEnd>
    ensures { Answers (given_or empty_list (greatest items.now)) result }
{
    match greatest(items) {
        Some(item) => Ok(item.share()?),
        None => Err(empty_list(alloc)),
    }
}

fn list_min(alloc: Global, items: &[Value]) -> Result<Value, OpEnd>
    ensures { Answers (given_or empty_list (least items.now)) result }
{
    match least(items) {
        Some(item) => Ok(item.share()?),
        None => Err(empty_list(alloc)),
    }
}

// The last element of a set, whose elements rise.
fn set_max(alloc: Global, items: &[Value]) -> Result<Value, OpEnd>
    requires { Rises plain_cmp items.now }
    ensures { Answers (given_or empty_set (greatest items.now)) result }
{
    match items.last() {
        Some(item) => Ok(item.share()?),
        None => Err(empty_set(alloc)),
    }
}

// The first element of a set, whose elements rise.
fn set_min(alloc: Global, items: &[Value]) -> Result<Value, OpEnd>
    requires { Rises plain_cmp items.now }
    ensures { Answers (given_or empty_set (least items.now)) result }
{
    match items.first() {
        Some(item) => Ok(item.share()?),
        None => Err(empty_set(alloc)),
    }
}

fn greatest(items: &[Value]) -> Option<&Value>
    ensures { option_copied result ≡ greatest items.now }
{
    let (first, others) = items.split_first()?;
    Some(greatest_from(first, others))
}

fn greatest_from<'a>(first: &'a Value, others: &'a [Value]) -> &'a Value
    ensures { result.now ≡ fold larger first.now others.now }
{
    let mut best = first;
    for item in others {
        best = larger(best, item);
    }
    best
}

fn larger<'a>(a: &'a Value, b: &'a Value) -> &'a Value
    ensures { result.now ≡ larger a.now b.now }
{
    match b.cmp(a) {
        Ordering::Greater => b,
        Ordering::Less | Ordering::Equal => a,
    }
}

fn least(items: &[Value]) -> Option<&Value>
    ensures { option_copied result ≡ least items.now }
{
    let (first, others) = items.split_first()?;
    Some(least_from(first, others))
}

fn least_from<'a>(first: &'a Value, others: &'a [Value]) -> &'a Value
    ensures { result.now ≡ fold smaller first.now others.now }
{
    let mut best = first;
    for item in others {
        best = smaller(best, item);
    }
    best
}

fn smaller<'a>(a: &'a Value, b: &'a Value) -> &'a Value
    ensures { result.now ≡ smaller a.now b.now }
{
    match b.cmp(a) {
        Ordering::Less => b,
        Ordering::Greater | Ordering::Equal => a,
    }
}
