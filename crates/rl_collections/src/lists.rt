//! reverse, take, drop, indexOf and toSet.

ghost use Rattle.std.specs.Prelude.{◌≡◌, ◌≤ℤ◌, pos, IfOk, reverse, map, position};
ghost use Rattle.rl_value.specs.Laws.{plain_eq};
ghost use Rattle.std.specs.Int.{int_min};
ghost use Rattle.rl_exception.specs.Answer.{Answers};
ghost use Rattle.rl_collections.specs.Lists.{reverse_of, take_of, drop_of, front_of, back_of, index_of, to_set_of, place_or_minus_one};

use rl_arguments::{list_in, shares};
use rl_exception::{OpEnd, fitted_list, fitted_set, illegal_argument, wrong_kind};
use rl_value::{Value, int};
use std::alloc::{AllocError, Global};

/// A list from its end.
pub fn reverse(alloc: Global, v: &Value) -> Result<Value, OpEnd>
    ensures { Answers (reverse_of v.now) result }
{
    let Some(items) = list_in(v) else {
        return Err(wrong_kind(alloc));
    };
    fitted_list(alloc, reversed(alloc, items)?)
}

fn reversed(alloc: Global, items: &[Value]) -> Result<Vec<Value>, AllocError>
    ensures { IfOk result (λ v. v.items ≡ reverse items.now) }
{
    let mut reversed = shares(alloc, items)?;
    reversed.reverse();
    Ok(reversed)
}

/// The first `n` elements of a list, or all where it has fewer.
pub fn take_front(alloc: Global, n: &Value, v: &Value) -> Result<Value, OpEnd>
    ensures { Answers (take_of n.now v.now) result }
{
    let (Some(count), Some(items)) = (n.as_int(), list_in(v)) else {
        return Err(wrong_kind(alloc));
    };
    front(alloc, count, items)
}

fn front(alloc: Global, count: i128, items: &[Value]) -> Result<Value, OpEnd>
    ensures { Answers (front_of count items.now) result }
{
    if count < 0 {
        return Err(illegal_argument(alloc, &int(count)));
    }
    let place = place_within(count, items.len());
    fitted_list(alloc, shares(alloc, &items[..place])?)
}

/// A list without its first `n` elements; the empty list where it has fewer.
pub fn drop_front(alloc: Global, n: &Value, v: &Value) -> Result<Value, OpEnd>
    ensures { Answers (drop_of n.now v.now) result }
{
    let (Some(count), Some(items)) = (n.as_int(), list_in(v)) else {
        return Err(wrong_kind(alloc));
    };
    back(alloc, count, items)
}

fn back(alloc: Global, count: i128, items: &[Value]) -> Result<Value, OpEnd>
    ensures { Answers (back_of count items.now) result }
{
    if count < 0 {
        return Err(illegal_argument(alloc, &int(count)));
    }
    let place = place_within(count, items.len());
    fitted_list(alloc, shares(alloc, &items[place..])?)
}

// The place behind `count` elements, or the end.
fn place_within(count: i128, length: usize) -> usize
    requires { pos 0 ≤ℤ count }
    ensures { pos result ≡ int_min count (pos length) }
{
    if count < length as i128 {
        count as usize
    } else {
        length
    }
}

/// The first place of an element in a list, or -1.
pub fn index_of(alloc: Global, v: &Value, element: &Value) -> Result<Value, OpEnd>
    ensures { Answers (index_of v.now element.now) result }
{
    match list_in(v) {
        Some(items) => Ok(int(place_or_minus_one(first_place(items, element)))),
        None => Err(wrong_kind(alloc)),
    }
}

fn first_place(items: &[Value], element: &Value) -> Option<usize>
    ensures { result ≡ position (λ t. plain_eq t element.now) items.now }
{
    items.iter().position(|item| *item == *element)
}

fn place_or_minus_one(place: Option<usize>) -> i128
    ensures { result ≡ place_or_minus_one place }
{
    match place {
        Some(place) => place as i128,
        None => -1,
    }
}

/// The set of the elements of a list.
pub fn to_set(alloc: Global, v: &Value) -> Result<Value, OpEnd>
    ensures { Answers (to_set_of v.now) result }
{
    let Some(items) = list_in(v) else {
        return Err(wrong_kind(alloc));
    };
    fitted_set(alloc, shares(alloc, items)?)
}
