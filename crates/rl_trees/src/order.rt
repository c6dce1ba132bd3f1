//! Spans by their offset, longer ones first, and then as a walk meets them.

ghost use Rattle.std.specs.Prelude.{◌≡◌, IfOk, OnOk, map};
ghost use Rattle.std.specs.BTreeMap.{insert_entry};
ghost use Rattle.rl_trees.specs.Order.{in_order};
ghost use Rattle.rl_trees.specs.Standing.{standing_cmp, standing, span_of};

use crate::walk::Span;
use rl_value::Value;
use std::alloc::{AllocError, Global};
use std::cmp::Reverse;
use std::collections::BTreeMap;

/// Offset, length, and place in the walk.
pub(crate) type Standing = (u32, Reverse<u32>, usize);

/// The trees by their offset, longer ones first, and then as the walk meets them.
pub(crate) fn in_order(
    alloc: Global,
    spans: Vec<Span>,
) -> Result<BTreeMap<Standing, Value>, AllocError>
    ensures { IfOk result (λ ordered. map span_of ordered.entries ≡ in_order spans.items) }
{
    let mut ordered = BTreeMap::new(alloc);
    let mut place = 0;
    for span in spans {
        insert(&mut ordered, place, span)?;
        place += 1;
    }
    Ok(ordered)
}

fn insert(
    ordered: &mut BTreeMap<Standing, Value>,
    place: usize,
    span: Span,
) -> Result<(), AllocError>
    ensures { OnOk result (ordered.new.entries ≡ insert_entry standing_cmp ordered.old.entries (standing place span) span.tree) }
{
    let Span {
        offset,
        length,
        tree,
    } = span;
    drop(ordered.insert((offset, Reverse(length), place), tree)?);
    Ok(())
}
