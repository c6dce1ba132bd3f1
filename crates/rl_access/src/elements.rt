//! What `a[i]` gives.

ghost use Rattle.std.specs.Prelude.{◌≡◌, true, false, map};
ghost use Rattle.std.specs.Option.{option_copied};
ghost use Rattle.std.specs.Ordering.{is_lt};
ghost use Rattle.std.specs.List.Sorted.{IsPartitionPoint};
ghost use Rattle.rl_value.specs.Plain.{list, tuple, text, mapping, set, plains_of, pairs_of};
ghost use Rattle.rl_value.specs.View.{pair_of};
ghost use Rattle.rl_value.specs.Order.{plain_cmp};
ghost use Rattle.rl_value.specs.Rising.{Rises};
ghost use Rattle.rl_value.specs.Readers.{as_int};
ghost use Rattle.rl_exception.specs.Answer.{Answers};
ghost use Rattle.rl_access.specs.Operands.{of_int};
ghost use Rattle.rl_access.specs.Elements.{subscript_of, element_of, character_of, value_at, value_of};

use crate::operands::{character_count, piece, place_of};
use crate::rows::rows_of;
use rl_exception::{OpEnd, fitted_text, index_out_of_bounds, no_such_key, wrong_kind};
use rl_value::{Entry, Opened, Value};
use std::alloc::Global;

/// The element of a list, the part of a tuple or the character of a text at a place, where a negative
/// one counts from the end; the value of a key of a map; or, of a set of tuples of two parts or more,
/// what stands in them behind this first part.
#[tactic(auto, using(rl_value::specs::Plain::back))]
pub fn subscript(alloc: Global, a: &Value, i: &Value) -> Result<Value, OpEnd>
    ensures { Answers (subscript_of a.now i.now) result }
{
    match a.open() {
        Opened::List(items) => element(alloc, items, i),
        Opened::Tuple(parts) => element(alloc, parts, i),
        Opened::Text(text) => character(alloc, text, i),
        Opened::Map(entries) => value_of(alloc, entries, i),
        Opened::Set(items) => rows_of(alloc, items, i),
        _ => Err(wrong_kind(alloc)),
    }
}

fn element(alloc: Global, items: &[Value], i: &Value) -> Result<Value, OpEnd>
    ensures { Answers (of_int (as_int i.now) (element_of items.now)) result }
{
    let Some(index) = i.as_int() else {
        return Err(wrong_kind(alloc));
    };
    match place_of(items.len(), index) {
        Some(place) => Ok(items[place].share()?),
        None => Err(index_out_of_bounds(alloc, index)),
    }
}

fn character(alloc: Global, text: &str, i: &Value) -> Result<Value, OpEnd>
    ensures { Answers (of_int (as_int i.now) (character_of text.now)) result }
{
    let Some(index) = i.as_int() else {
        return Err(wrong_kind(alloc));
    };
    match place_of(character_count(text), index) {
        Some(place) => {
            let found = piece(alloc, text, place, 1)?;
            fitted_text(alloc, found.as_str())
        }
        None => Err(index_out_of_bounds(alloc, index)),
    }
}

fn value_of(alloc: Global, entries: &[Entry], key: &Value) -> Result<Value, OpEnd>
    requires { Rises plain_cmp (map (λ e. e.key) entries.now) }
    ensures { Answers (value_of (map pair_of entries.now) key.now) result }
{
    match find(entries, key) {
        Some(value) => Ok(value.share()?),
        None => Err(no_such_key(alloc, key)),
    }
}

// The value of a key, by halving.
fn find<'a>(entries: &'a [Entry], key: &Value) -> Option<&'a Value>
    requires { Rises plain_cmp (map (λ e. e.key) entries.now) }
    ensures { option_copied result ≡ value_at key.now (map pair_of entries.now) }
{
    let place = key_place(entries, key);
    if place < entries.len() {
        let entry = &entries[place];
        if entry.key == *key {
            return Some(&entry.value);
        }
    }
    None
}

// The place of the first entry whose key is not below this one.
fn key_place(entries: &[Entry], key: &Value) -> usize
    requires { Rises plain_cmp (map (λ e. e.key) entries.now) }
    ensures { IsPartitionPoint (λ e. is_lt (plain_cmp e.key key.now) ≡ true) (λ e. is_lt (plain_cmp e.key key.now) ≡ false) entries.now result }
{
    entries.partition_point(|entry| is_before(entry, key))
}

// Whether the key of an entry is below this one.
fn is_before(entry: &Entry, key: &Value) -> bool
    ensures { result ≡ is_lt (plain_cmp entry.now.key key.now) }
{
    entry.key.cmp(key).is_lt()
}
