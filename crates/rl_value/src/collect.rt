//! Sets and maps made of their elements and entries.

ghost use Rattle.std.specs.Prelude.{◌≡◌, ◌≤◌, ◌<◌, ◌^◌, ◌+◌, ◌⊎◌, [], IfOk, OnOk, MatchOption, map};
ghost use Rattle.rl_value.specs.Plain.{set, mapping, plains_of, pairs_of, pairs_size, pairs_height};
ghost use Rattle.rl_value.specs.View.{pair_of};
ghost use Rattle.rl_value.specs.Built.{Builds};
ghost use Rattle.rl_value.specs.Order.{plain_cmp};
ghost use Rattle.rl_value.specs.Rising.{rising, Rises};
ghost use Rattle.rl_value.specs.Entries.{put_all};
ghost use Rattle.std.specs.BTreeMap.{insert_entry};

use crate::build::{MAX_HEIGHT, MAX_SIZE, measure};
use crate::build_end::BuildEnd;
use crate::order::make_rising;
use crate::value::{Entries, Entry, Form, Parts, Value};
use std::alloc::{AllocError, Global};
use std::collections::BTreeMap;
use std::rc::Rc;

/// A set of these values, which may come in any order and with repeats.
pub fn set(alloc: Global, vs: Vec<Value>) -> Result<Value, BuildEnd>
    ensures { Builds (set (plains_of (rising plain_cmp vs.items))) result }
{
    let mut items = vs;
    make_rising(&mut items);
    match measure(&items) {
        None => Err(BuildEnd::TooLarge),
        Some((size, height)) => {
            let parts = Rc::new(
                alloc,
                Parts {
                    size,
                    height,
                    items,
                },
            )?;
            Ok(Value {
                form: Form::Set(parts),
            })
        }
    }
}

/// A map of these keys with their values, which may come in any order. The later of two equal keys wins.
pub fn map(alloc: Global, pairs: Vec<(Value, Value)>) -> Result<Value, BuildEnd>
    ensures { Builds (mapping (pairs_of (put_all [] pairs.items))) result }
{
    let pairs = in_order(alloc, pairs)?;
    match measure_pairs(&pairs) {
        None => Err(BuildEnd::TooLarge),
        Some((size, height)) => {
            let entries = Rc::new(
                alloc,
                Entries {
                    size,
                    height,
                    pairs,
                },
            )?;
            Ok(Value {
                form: Form::Map(entries),
            })
        }
    }
}

// The size and the height of a map with these inside, unless a limit is passed.
fn measure_pairs(pairs: &[Entry]) -> Option<(u32, u32)>
    ensures { MatchOption result
        ((2 ^ 24 < 1 + pairs_size (pairs_of (map pair_of pairs.now))) ⊎ (2000 < 1 + pairs_height (pairs_of (map pair_of pairs.now))))
        (λ m. (m.0 ≡ 1 + pairs_size (pairs_of (map pair_of pairs.now))) × (m.1 ≡ 1 + pairs_height (pairs_of (map pair_of pairs.now)))
        × (m.0 ≤ 2 ^ 24) × (m.1 ≤ 2000)) }
{
    let mut size = 1;
    let mut height = 1;
    for pair in pairs {
        size += pair.key.size() + pair.value.size();
        if size > MAX_SIZE {
            return None;
        }
        height = height.max(1 + pair.key.height().max(pair.value.height()));
        if height > MAX_HEIGHT {
            return None;
        }
    }
    Some((size, height))
}

// The entries by their keys; the later of two equal keys wins.
fn in_order(alloc: Global, pairs: Vec<(Value, Value)>) -> Result<Vec<Entry>, AllocError>
    ensures pairs { IfOk result (λ v. map pair_of v.items ≡ put_all [] pairs.items) }
    ensures rises { IfOk result (λ v. Rises plain_cmp (map (λ e. e.key) v.items)) }
{
    let mut ordered = BTreeMap::new(alloc);
    for (key, value) in pairs {
        put(&mut ordered, key, value)?;
    }
    let mut entries = Vec::new(alloc);
    for (k, v) in ordered {
        entries.push(Entry { key: k, value: v })?;
    }
    Ok(entries)
}

fn put(ordered: &mut BTreeMap<Value, Value>, key: Value, value: Value) -> Result<(), AllocError>
    ensures { OnOk result (ordered.new.entries ≡ insert_entry plain_cmp ordered.old.entries key value) }
{
    drop(ordered.insert(key, value)?);
    Ok(())
}
