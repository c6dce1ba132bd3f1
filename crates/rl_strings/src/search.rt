//! contains, startsWith and endsWith.

ghost use Rattle.std.specs.Prelude.{◌≡◌, nat_eq, is_some};
ghost use Rattle.std.specs.List.{starts_with, ends_with};
ghost use Rattle.rl_exception.specs.Answer.{Answers};
ghost use Rattle.rl_strings.specs.Search.{first_at, contains_of, starts_with_of, ends_with_of};

use rl_arguments::str_in;
use rl_exception::{OpEnd, wrong_kind};
use rl_value::{Value, truth};
use std::alloc::Global;

/// Whether a text has another in it.
pub fn contains(alloc: Global, text: &Value, part: &Value) -> Result<Value, OpEnd>
    ensures { Answers (contains_of text.now part.now) result }
{
    let (Some(text), Some(part)) = (str_in(text), str_in(part)) else {
        return Err(wrong_kind(alloc));
    };
    Ok(truth(has_part(text, part)))
}

fn has_part(text: &str, part: &str) -> bool
    ensures { result ≡ is_some (first_at part.now text.now) }
{
    text.find(part).is_some()
}

/// Whether a text begins with another.
pub fn starts_with(alloc: Global, text: &Value, front: &Value) -> Result<Value, OpEnd>
    ensures { Answers (starts_with_of text.now front.now) result }
{
    let (Some(text), Some(front)) = (str_in(text), str_in(front)) else {
        return Err(wrong_kind(alloc));
    };
    Ok(truth(begins_with(text, front)))
}

fn begins_with(text: &str, front: &str) -> bool
    ensures { result ≡ starts_with nat_eq text.now front.now }
{
    text.starts_with(front)
}

/// Whether a text ends with another.
pub fn ends_with(alloc: Global, text: &Value, end: &Value) -> Result<Value, OpEnd>
    ensures { Answers (ends_with_of text.now end.now) result }
{
    let (Some(text), Some(end)) = (str_in(text), str_in(end)) else {
        return Err(wrong_kind(alloc));
    };
    Ok(truth(stops_with(text, end)))
}

fn stops_with(text: &str, end: &str) -> bool
    ensures { result ≡ ends_with nat_eq text.now end.now }
{
    text.ends_with(end)
}
