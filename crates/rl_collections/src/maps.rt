//! delete, toList, and domain and range of maps.

ghost use Rattle.std.specs.Prelude.{◌≡◌, IfOk, map, [], ◌∷◌};
ghost use Rattle.rl_value.specs.Plain.{tuple, plains_of};
ghost use Rattle.rl_value.specs.View.{pair_of};
ghost use Rattle.rl_value.specs.Built.{Builds};
ghost use Rattle.rl_exception.specs.Answer.{Answers, fitting};
ghost use Rattle.rl_arguments.specs.Arguments.{list_of, map_of};
ghost use Rattle.rl_arguments.specs.Lists.{BuildsList};
ghost use Rattle.rl_collections.specs.Maps.{keys_of, values_of, without, delete_of, row, to_list_of};

use rl_arguments::{entries_in, shares};
use rl_exception::{OpEnd, fitted_list, fitted_map, fitted_set, unbuilt, wrong_kind};
use rl_value::{BuildEnd, Entry, Opened, Value, tuple};
use std::alloc::{AllocError, Global};

/// The set of the keys of a map.
#[tactic(auto, using(crate::proofs::MapsLemmas::keys_pairs))]
pub fn keys(alloc: Global, entries: &[Entry]) -> Result<Value, OpEnd>
    ensures { Answers (keys_of (map pair_of entries.now)) result }
{
    fitted_set(alloc, all_keys(alloc, entries)?)
}

fn all_keys(alloc: Global, entries: &[Entry]) -> Result<Vec<Value>, AllocError>
    ensures { IfOk result (λ v. v.items ≡ map (λ e. e.key) entries.now) }
{
    let mut keys = Vec::with_capacity(alloc, entries.len())?;
    for entry in entries {
        keys.push(entry.key.share()?)?;
    }
    Ok(keys)
}

/// The set of the values of a map.
#[tactic(auto, using(crate::proofs::MapsLemmas::values_pairs))]
pub fn values(alloc: Global, entries: &[Entry]) -> Result<Value, OpEnd>
    ensures { Answers (values_of (map pair_of entries.now)) result }
{
    fitted_set(alloc, all_values(alloc, entries)?)
}

fn all_values(alloc: Global, entries: &[Entry]) -> Result<Vec<Value>, AllocError>
    ensures { IfOk result (λ v. v.items ≡ map (λ e. e.value) entries.now) }
{
    let mut values = Vec::with_capacity(alloc, entries.len())?;
    for entry in entries {
        values.push(entry.value.share()?)?;
    }
    Ok(values)
}

/// A map without a key.
pub fn delete(alloc: Global, v: &Value, key: &Value) -> Result<Value, OpEnd>
    ensures { Answers (delete_of v.now key.now) result }
{
    match entries_in(v) {
        Some(entries) => without_key(alloc, entries, key),
        None => Err(wrong_kind(alloc)),
    }
}

fn without_key(alloc: Global, entries: &[Entry], key: &Value) -> Result<Value, OpEnd>
    ensures { Answers (fitting (map_of (without key.now (map pair_of entries.now)))) result }
{
    fitted_map(alloc, other_entries(alloc, entries, key)?)
}

fn other_entries(
    alloc: Global,
    entries: &[Entry],
    key: &Value,
) -> Result<Vec<(Value, Value)>, AllocError>
    ensures { IfOk result (λ pairs. pairs.items ≡ without key.now (map pair_of entries.now)) }
{
    let mut others = Vec::with_capacity(alloc, entries.len())?;
    for entry in entries {
        if entry.key != *key {
            others.push((entry.key.share()?, entry.value.share()?))?;
        }
    }
    Ok(others)
}

/// The elements of a set from the least on, or the keys of a map with their values.
#[tactic(auto, using(rl_value::specs::Plain::back))]
pub fn to_list(alloc: Global, v: &Value) -> Result<Value, OpEnd>
    ensures { Answers (to_list_of v.now) result }
{
    match v.open() {
        Opened::Set(items) => elements(alloc, items),
        Opened::Map(entries) => rows(alloc, entries),
        _ => Err(wrong_kind(alloc)),
    }
}

fn elements(alloc: Global, items: &[Value]) -> Result<Value, OpEnd>
    ensures { Answers (fitting (list_of items.now)) result }
{
    fitted_list(alloc, shares(alloc, items)?)
}

#[tactic(auto, using(crate::proofs::MapsLemmas::rows_pairs))]
fn rows(alloc: Global, entries: &[Entry]) -> Result<Value, OpEnd>
    ensures { Answers (fitting (list_of (map row (map pair_of entries.now)))) result }
{
    match all_rows(alloc, entries) {
        Ok(rows) => fitted_list(alloc, rows),
        Err(end) => Err(unbuilt(alloc, end)),
    }
}

fn all_rows(alloc: Global, entries: &[Entry]) -> Result<Vec<Value>, BuildEnd>
    ensures { BuildsList (map (λ e. row (pair_of e)) entries.now) result }
{
    let mut rows = Vec::with_capacity(alloc, entries.len())?;
    for entry in entries {
        match row(alloc, entry) {
            Ok(row) => rows.push(row)?,
            Err(end) => return Err(end),
        }
    }
    Ok(rows)
}

fn row(alloc: Global, entry: &Entry) -> Result<Value, BuildEnd>
    ensures { Builds (row (pair_of entry.now)) result }
{
    let mut parts = Vec::with_capacity(alloc, 2)?;
    parts.push(entry.key.share()?)?;
    parts.push(entry.value.share()?)?;
    tuple(alloc, parts)
}
