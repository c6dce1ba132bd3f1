//! The rows of a relation: tuples of two parts or more.

ghost use Rattle.std.specs.Prelude.{◌≡◌, ◌≤◌, length, true, false, IfOk};
ghost use Rattle.std.specs.List.{list_all};
ghost use Rattle.std.specs.List.Sorted.{IsPartitionPoint};
ghost use Rattle.rl_value.specs.Plain.{Fits, tuple, plains_of};
ghost use Rattle.rl_value.specs.Order.{plain_cmp};
ghost use Rattle.rl_value.specs.Rising.{Rises};
ghost use Rattle.rl_exception.specs.Answer.{Answers};
ghost use Rattle.rl_access.specs.Rows.{is_row, is_below, begins_with, rests, rest_of};
ghost use Rattle.rl_access.specs.Elements.{rows_of};

use crate::operands::shared;
use rl_exception::{OpEnd, fitted_set, wrong_kind};
use rl_value::{BuildEnd, Opened, Value, tuple};
use std::alloc::{AllocError, Global};

/// What stands behind the first part in the rows that begin with `key`, as a set.
pub(crate) fn rows_of(alloc: Global, items: &[Value], key: &Value) -> Result<Value, OpEnd>
    requires { Rises plain_cmp items.now }
    ensures { Answers (rows_of items.now key.now) result }
{
    if !are_rows(items) {
        return Err(wrong_kind(alloc));
    }
    let found = rests(alloc, items, key)?;
    fitted_set(alloc, found)
}

fn are_rows(items: &[Value]) -> bool
    ensures { result ≡ list_all is_row items.now }
{
    items.iter().all(|item| is_row(item))
}

// Whether a value is a tuple of two parts or more.
fn is_row(value: &Value) -> bool
    ensures { result ≡ is_row value.now }
{
    match value.open() {
        Opened::Tuple(parts) => parts.len() >= 2,
        _ => false,
    }
}

// The place of the first of these rising rows that begins with `key` or with something above it.
fn first_row(rows: &[Value], key: &Value) -> usize
    requires rises { Rises plain_cmp rows.now }
    requires rows { list_all is_row rows.now ≡ true }
    ensures bound { result ≤ length rows.now }
    ensures point { IsPartitionPoint (λ row. is_below key.now row ≡ true) (λ row. is_below key.now row ≡ false) rows.now result }
{
    rows.partition_point(|row| is_below(row, key))
}

// Whether a row begins with something below `key`.
fn is_below(row: &Value, key: &Value) -> bool
    ensures { result ≡ is_below key.now row.now }
{
    match row.open() {
        Opened::Tuple([first, ..]) => first.cmp(key).is_lt(),
        _ => false,
    }
}

// Whether a row begins with `key`.
fn begins_with(row: &Value, key: &Value) -> bool
    ensures { result ≡ begins_with key.now row.now }
{
    match row.open() {
        Opened::Tuple([first, ..]) => *first == *key,
        _ => false,
    }
}

/// What stands behind the first part in those of these rising rows that begin with `key`. The first of
/// them is found by halving.
pub fn rests(alloc: Global, rows: &[Value], key: &Value) -> Result<Vec<Value>, AllocError>
    requires rises { Rises plain_cmp rows.now }
    requires rows { list_all is_row rows.now ≡ true }
    ensures { IfOk result (λ found. found.items ≡ rests key.now rows.now) }
{
    let start = first_row(rows, key);
    rests_from(alloc, rows, start, key)
}

// The same, where the first of them stands at `start`, if there is one.
fn rests_from(
    alloc: Global,
    rows: &[Value],
    start: usize,
    key: &Value,
) -> Result<Vec<Value>, AllocError>
    requires rises { Rises plain_cmp rows.now }
    requires rows { list_all is_row rows.now ≡ true }
    requires within { start ≤ length rows.now }
    requires start { IsPartitionPoint (λ row. is_below key.now row ≡ true) (λ row. is_below key.now row ≡ false) rows.now start }
    ensures { IfOk result (λ found. found.items ≡ rests key.now rows.now) }
{
    let mut found = Vec::new(alloc);
    for i in start..rows.len() {
        let row = &rows[i];
        if !begins_with(row, key) {
            return Ok(found);
        }
        found.push(rest_of(alloc, row)?)?;
    }
    Ok(found)
}

// What stands behind the first part of a row.
fn rest_of(alloc: Global, row: &Value) -> Result<Value, AllocError>
    requires { is_row row.now ≡ true }
    ensures { IfOk result (λ rest. rest ≡ rest_of row.now) }
{
    match row.open() {
        Opened::Tuple(parts) => behind_first(alloc, parts),
        _ => row.share(),
    }
}

fn behind_first(alloc: Global, parts: &[Value]) -> Result<Value, AllocError>
    requires long { 2 ≤ length parts.now }
    requires fits { Fits (tuple (plains_of parts.now)) }
    ensures { IfOk result (λ rest. rest ≡ rest_of (tuple (plains_of parts.now))) }
{
    if parts.len() == 2 {
        parts[1].share()
    } else {
        let rest = shared(alloc, &parts[1..])?;
        narrower(alloc, rest)
    }
}

// A tuple of parts that fit in one.
fn narrower(alloc: Global, parts: Vec<Value>) -> Result<Value, AllocError>
    requires { Fits (tuple (plains_of parts.items)) }
    ensures { IfOk result (λ made. made ≡ tuple (plains_of parts.items)) }
{
    match tuple(alloc, parts) {
        Ok(made) => Ok(made),
        Err(BuildEnd::TooLarge) => unreachable!(),
        Err(BuildEnd::OutOfMemory) => Err(AllocError),
    }
}
