//! What a value becomes by an assignment to one of its parts.

ghost use Rattle.std.specs.Prelude.{◌≡◌, ◌<◌, ◌++◌, ◌∷◌, [], map, length, slice_set, IfOk};
ghost use Rattle.std.specs.BTreeMap.{insert_entry};
ghost use Rattle.rl_value.specs.Plain.{list, tuple, mapping, node, plains_of, pairs_of};
ghost use Rattle.rl_value.specs.View.{pair_of};
ghost use Rattle.rl_value.specs.Order.{plain_cmp};
ghost use Rattle.rl_value.specs.Rising.{Rises};
ghost use Rattle.rl_value.specs.Entries.{put_all};
ghost use Rattle.rl_value.specs.Readers.{as_int};
ghost use Rattle.rl_exception.specs.Answer.{Answers, fitting};
ghost use Rattle.rl_access.specs.Operands.{of_int};
ghost use Rattle.rl_access.specs.Changes.{with_subscript_of, with_field_of, with_field_at, replaced};

use crate::operands::{place_of, shared};
use rl_exception::{
    OpEnd, fitted_list, fitted_map, fitted_node, fitted_tuple, index_out_of_bounds, no_such_field,
    wrong_kind,
};
use rl_value::{Entry, Opened, Value};
use std::alloc::{AllocError, Global};

/// A list, a tuple or a map with `v` in place of the element, the part or the value that `i` names. A
/// key that a map lacks is put in.
#[tactic(auto, using(rl_value::specs::Plain::back))]
pub fn with_subscript(alloc: Global, a: &Value, i: &Value, v: &Value) -> Result<Value, OpEnd>
    ensures { Answers (with_subscript_of a.now i.now v.now) result }
{
    match a.open() {
        Opened::List(items) => with_element(alloc, items, i, v),
        Opened::Tuple(parts) => with_part(alloc, parts, i, v),
        Opened::Map(entries) => with_entry(alloc, entries, i, v),
        _ => Err(wrong_kind(alloc)),
    }
}

fn with_element(alloc: Global, items: &[Value], i: &Value, v: &Value) -> Result<Value, OpEnd>
    ensures { Answers (of_int (as_int i.now) (replaced list items.now v.now)) result }
{
    let Some(index) = i.as_int() else {
        return Err(wrong_kind(alloc));
    };
    match place_of(items.len(), index) {
        Some(place) => fitted_list(alloc, with_one(alloc, items, place, v)?),
        None => Err(index_out_of_bounds(alloc, index)),
    }
}

fn with_part(alloc: Global, parts: &[Value], i: &Value, v: &Value) -> Result<Value, OpEnd>
    ensures { Answers (of_int (as_int i.now) (replaced tuple parts.now v.now)) result }
{
    let Some(index) = i.as_int() else {
        return Err(wrong_kind(alloc));
    };
    match place_of(parts.len(), index) {
        Some(place) => fitted_tuple(alloc, with_one(alloc, parts, place, v)?),
        None => Err(index_out_of_bounds(alloc, index)),
    }
}

// The values, shared, with `v` at a place.
fn with_one(
    alloc: Global,
    values: &[Value],
    place: usize,
    v: &Value,
) -> Result<Vec<Value>, AllocError>
    requires { place < length values.now }
    ensures { IfOk result (λ changed. changed.items ≡ slice_set values.now place v.now) }
{
    let mut changed = shared(alloc, values)?;
    changed[place] = v.share()?;
    Ok(changed)
}

fn with_entry(alloc: Global, entries: &[Entry], key: &Value, v: &Value) -> Result<Value, OpEnd>
    requires { Rises plain_cmp (map (λ e. e.key) entries.now) }
    ensures { Answers (fitting (mapping (pairs_of (insert_entry plain_cmp (map pair_of entries.now) key.now v.now)))) result }
{
    let pairs = with_pair(alloc, entries, key, v)?;
    fitted_map(alloc, pairs)
}

// The keys with their values, and one more behind them.
fn with_pair(
    alloc: Global,
    entries: &[Entry],
    key: &Value,
    v: &Value,
) -> Result<Vec<(Value, Value)>, AllocError>
    ensures { IfOk result (λ pairs. pairs.items ≡ map pair_of entries.now ++ ((key.now, v.now) ∷ [])) }
{
    let mut pairs = pairs(alloc, entries)?;
    pairs.push((key.share()?, v.share()?))?;
    Ok(pairs)
}

// The keys with their values, shared.
fn pairs(alloc: Global, entries: &[Entry]) -> Result<Vec<(Value, Value)>, AllocError>
    ensures { IfOk result (λ pairs. pairs.items ≡ map pair_of entries.now) }
{
    let mut pairs = Vec::with_capacity(alloc, entries.len())?;
    for entry in entries {
        pairs.push((entry.key.share()?, entry.value.share()?))?;
    }
    Ok(pairs)
}

/// A constructor with `v` in a field. Its declaration says at which place the field of this name
/// stands, counted from 0, if it has one.
#[tactic(auto, using(rl_value::specs::Plain::back))]
pub fn with_field(
    alloc: Global,
    a: &Value,
    name: &str,
    place: Option<usize>,
    v: &Value,
) -> Result<Value, OpEnd>
    ensures { Answers (with_field_of a.now name.now place v.now) result }
{
    let Opened::Node(constructor, fields) = a.open() else {
        return Err(wrong_kind(alloc));
    };
    match place {
        Some(place) if place < fields.len() => {
            fitted_node(alloc, constructor, with_one(alloc, fields, place, v)?)
        }
        _ => Err(no_such_field(alloc, name)),
    }
}
