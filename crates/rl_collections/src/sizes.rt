//! size and isEmpty.

ghost use Rattle.std.specs.Prelude.{◌≡◌, ◌==◌, length};
ghost use Rattle.std.specs.Str.{chars};
ghost use Rattle.std.specs.Option.{option_map};
ghost use Rattle.rl_exception.specs.Answer.{Answers};
ghost use Rattle.rl_collections.specs.Sizes.{count_in, size_of, is_empty_of};

use rl_exception::{OpEnd, wrong_kind};
use rl_value::{Opened, Value, int, truth};
use std::alloc::Global;

/// How many elements a list, a set or a map has, or characters a text.
pub fn size(alloc: Global, v: &Value) -> Result<Value, OpEnd>
    ensures { Answers (size_of v.now) result }
{
    match count_in(v) {
        Some(count) => Ok(int(count as i128)),
        None => Err(wrong_kind(alloc)),
    }
}

/// Whether a list, a set, a map or a text has nothing in it.
pub fn is_empty(alloc: Global, v: &Value) -> Result<Value, OpEnd>
    ensures { Answers (is_empty_of v.now) result }
{
    match is_empty_in(v) {
        Some(empty) => Ok(truth(empty)),
        None => Err(wrong_kind(alloc)),
    }
}

#[tactic(auto, using(rl_value::specs::Plain::back))]
fn count_in(v: &Value) -> Option<usize>
    ensures { result ≡ count_in v.now }
{
    match v.open() {
        Opened::List(items) | Opened::Set(items) => Some(items.len()),
        Opened::Map(entries) => Some(entries.len()),
        Opened::Text(text) => Some(character_count(text)),
        _ => None,
    }
}

#[tactic(auto, using(rl_value::specs::Plain::back))]
fn is_empty_in(v: &Value) -> Option<bool>
    ensures { result ≡ option_map (λ n. n == 0) (count_in v.now) }
{
    match v.open() {
        Opened::List(items) | Opened::Set(items) => Some(items.is_empty()),
        Opened::Map(entries) => Some(entries.is_empty()),
        Opened::Text(text) => Some(has_no_character(text)),
        _ => None,
    }
}

fn character_count(text: &str) -> usize
    ensures { result ≡ length (chars text.now) }
{
    text.chars().count()
}

fn has_no_character(text: &str) -> bool
    ensures { result ≡ (length (chars text.now) == 0) }
{
    text.is_empty()
}
