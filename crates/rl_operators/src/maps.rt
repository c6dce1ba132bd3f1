//! Maps, as the rising lists of their entries.
ghost use Rattle.std.specs.Prelude.{◌≡◌, ◌++◌, map, IfOk, OnOk};
ghost use Rattle.rl_value.specs.Plain.{mapping, pairs_of};
ghost use Rattle.rl_value.specs.Opened.{IsInOrder};
ghost use Rattle.rl_value.specs.View.{pair_of};
ghost use Rattle.rl_exception.specs.Answer.{fitting, Answers};
ghost use Rattle.rl_operators.specs.Maps.{map_of, keys_of};
ghost use Rattle.rl_operators.specs.Sets.{is_member};

use rl_exception::{OpEnd, fitted_map};
use rl_value::{Entry, Value};
use std::alloc::{AllocError, Global};

/// Whether a value is a key, by halving.
pub(crate) fn has_key(entries: &[Entry], x: &Value) -> bool
    requires { IsInOrder (mapping (pairs_of (map pair_of entries.now))) }
    ensures { result ≡ is_member (keys_of (pairs_of (map pair_of entries.now))) x.now }
{
    entries.binary_search_by(|entry| entry.key.cmp(x)).is_ok()
}

fn shared_entry(entry: &Entry) -> Result<(Value, Value), AllocError>
    ensures { IfOk result (λ pair. pair ≡ pair_of entry.now) }
{
    let key = entry.key.share()?;
    let value = entry.value.share()?;
    Ok((key, value))
}

fn share_entries(pairs: &mut Vec<(Value, Value)>, entries: &[Entry]) -> Result<(), AllocError>
    ensures { OnOk result (pairs.new.items ≡ pairs.old.items ++ map pair_of entries.now) }
{
    for entry in entries {
        pairs.push(shared_entry(entry)?)?;
    }
    Ok(())
}

// The entries of both.
fn joined_entries(
    alloc: Global,
    a: &[Entry],
    b: &[Entry],
) -> Result<Vec<(Value, Value)>, AllocError>
    ensures { IfOk result (λ v. v.items ≡ map pair_of a.now ++ map pair_of b.now) }
{
    let mut pairs = Vec::new(alloc);
    share_entries(&mut pairs, a)?;
    share_entries(&mut pairs, b)?;
    Ok(pairs)
}

/// The map of the entries of both, where the right one wins.
pub(crate) fn unite_maps(alloc: Global, a: &[Entry], b: &[Entry]) -> Result<Value, OpEnd>
    ensures { Answers (fitting (map_of (map pair_of a.now ++ map pair_of b.now))) result }
{
    match joined_entries(alloc, a, b) {
        Ok(pairs) => fitted_map(alloc, pairs),
        Err(end) => Err(OpEnd::from(end)),
    }
}
