//! substring.

ghost use Rattle.std.specs.Prelude.{◌≡◌, ◌≤◌, ◌-◌, IfOk, length, take, drop, encode_utf8_all};
ghost use Rattle.std.specs.Str.{chars};
ghost use Rattle.std.specs.String.{string_bytes};
ghost use Rattle.rl_exception.specs.Answer.{Answers};
ghost use Rattle.rl_strings.specs.Parts.{place_from, part_of, substring_of};

use rl_arguments::str_in;
use rl_exception::{OpEnd, fitted_text, index_out_of_bounds, wrong_kind};
use rl_value::Value;
use std::alloc::{AllocError, Global};

/// The characters of a text from one place up to another, both counted from 0.
pub fn substring(alloc: Global, text: &Value, from: &Value, to: &Value) -> Result<Value, OpEnd>
    ensures { Answers (substring_of text.now from.now to.now) result }
{
    let (Some(text), Some(from), Some(to)) = (str_in(text), from.as_int(), to.as_int()) else {
        return Err(wrong_kind(alloc));
    };
    part_of(alloc, text, from, to)
}

fn part_of(alloc: Global, text: &str, from: i128, to: i128) -> Result<Value, OpEnd>
    ensures { Answers (part_of (chars text.now) from to) result }
{
    let count = character_count(text);
    let Some(start) = place_from(0, count, from) else {
        return Err(index_out_of_bounds(alloc, from));
    };
    let Some(end) = place_from(start, count, to) else {
        return Err(index_out_of_bounds(alloc, to));
    };
    let part = characters(alloc, text, start, end)?;
    fitted_text(alloc, part.as_str())
}

fn character_count(text: &str) -> usize
    ensures { result ≡ length (chars text.now) }
{
    text.chars().count()
}

// The place that `i` is, from `low` to `high`.
fn place_from(low: usize, high: usize, i: i128) -> Option<usize>
    ensures { result ≡ place_from low high i }
{
    match usize::try_from(i) {
        Ok(place) if low <= place && place <= high => Some(place),
        _ => None,
    }
}

fn characters(alloc: Global, text: &str, start: usize, end: usize) -> Result<String, AllocError>
    ensures { IfOk result (λ s. string_bytes s ≡ encode_utf8_all (take (end - start) (drop start (chars text.now)))) }
{
    text.chars()
        .skip(start)
        .take(end.saturating_sub(start))
        .collect(alloc)
}
