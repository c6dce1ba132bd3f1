//! What `a[from..to]` gives.

ghost use Rattle.std.specs.Prelude.{◌≡◌, ◌≤◌, length, slice_range, IfOk};
ghost use Rattle.std.specs.Option.{option_copied};
ghost use Rattle.rl_value.specs.Plain.{text, list, plains_of};
ghost use Rattle.rl_exception.specs.Answer.{Answers};
ghost use Rattle.rl_access.specs.Slices.{slice_of, bound_of, place_between, cut_of, cut_out, number_of, Finds};

use crate::operands::{character_count, piece, shared};
use rl_exception::{OpEnd, fitted_list, fitted_text, index_out_of_bounds, wrong_kind};
use rl_value::{Opened, Value};
use std::alloc::Global;

/// The elements of a list or the characters of a text from one place up to another. A place that is
/// not given is an end, and a negative one counts from the end.
#[tactic(auto, using(rl_value::specs::Plain::back))]
pub fn slice(
    alloc: Global,
    a: &Value,
    from: Option<&Value>,
    to: Option<&Value>,
) -> Result<Value, OpEnd>
    ensures { Answers (slice_of a.now (option_copied from.entry) (option_copied to.entry)) result }
{
    match a.open() {
        Opened::List(items) => sublist(alloc, items, from, to),
        Opened::Text(text) => subtext(alloc, text, from, to),
        _ => Err(wrong_kind(alloc)),
    }
}

fn sublist(
    alloc: Global,
    items: &[Value],
    from: Option<&Value>,
    to: Option<&Value>,
) -> Result<Value, OpEnd>
    ensures { Answers (cut_out (λ i j. list (plains_of (slice_range items.now i j))) (cut_of (length items.now) (option_copied from.entry) (option_copied to.entry))) result }
{
    match cut(alloc, items.len(), from, to) {
        Ok((start, end)) => {
            let found = shared(alloc, &items[start..end])?;
            fitted_list(alloc, found)
        }
        Err(end) => Err(end),
    }
}

fn subtext(
    alloc: Global,
    characters: &str,
    from: Option<&Value>,
    to: Option<&Value>,
) -> Result<Value, OpEnd>
    ensures { Answers (slice_of (text characters.now) (option_copied from.entry) (option_copied to.entry)) result }
{
    match cut(alloc, character_count(characters), from, to) {
        Ok((start, end)) => {
            let found = piece(alloc, characters, start, end - start)?;
            fitted_text(alloc, found.as_str())
        }
        Err(end) => Err(end),
    }
}

// Where a slice of this many elements starts and ends.
fn cut(
    alloc: Global,
    count: usize,
    from: Option<&Value>,
    to: Option<&Value>,
) -> Result<(usize, usize), OpEnd>
    ensures found { Finds (cut_of count (option_copied from.entry) (option_copied to.entry)) result }
    ensures order { IfOk result (λ p. p.0 ≤ p.1) }
    ensures within { IfOk result (λ p. p.1 ≤ count) }
{
    let from = number(alloc, from)?;
    let to = number(alloc, to)?;
    let start = bound(alloc, count, 0, 0, from)?;
    let end = bound(alloc, count, count, start, to)?;
    Ok((start, end))
}

// The number that a bound is, if there is one.
fn number(alloc: Global, bound: Option<&Value>) -> Result<Option<i128>, OpEnd>
    ensures { Finds (number_of (option_copied bound.entry)) result }
{
    let Some(bound) = bound else {
        return Ok(None);
    };
    match bound.as_int() {
        Some(index) => Ok(Some(index)),
        None => Err(wrong_kind(alloc)),
    }
}

// The place of a bound among `count` elements from `low` on; `missing` where there is none.
fn bound(
    alloc: Global,
    count: usize,
    missing: usize,
    low: usize,
    bound: Option<i128>,
) -> Result<usize, OpEnd>
    ensures { Finds (bound_of count missing low bound) result }
{
    match bound {
        None => Ok(missing),
        Some(index) => match place_between(low, count, index) {
            Some(place) => Ok(place),
            None => Err(index_out_of_bounds(alloc, index)),
        },
    }
}

// The place that an index names among `high` elements, from `low` up to their end.
fn place_between(low: usize, high: usize, index: i128) -> Option<usize>
    ensures { result ≡ place_between low high index }
{
    let counted = if index < 0 {
        index + high as i128
    } else {
        index
    };
    match usize::try_from(counted) {
        Ok(place) if low <= place && place <= high => Some(place),
        _ => None,
    }
}
