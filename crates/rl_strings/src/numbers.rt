//! toInt.

ghost use Rattle.std.specs.Prelude.{◌≡◌};
ghost use Rattle.rl_exception.specs.Answer.{Answers};
ghost use Rattle.rl_strings.specs.Numbers.{number_in, to_int_of};

use rl_arguments::str_in;
use rl_exception::{OpEnd, illegal_argument, wrong_kind};
use rl_value::{Value, int};
use std::alloc::Global;

/// The number that a text writes.
pub fn to_int(alloc: Global, v: &Value) -> Result<Value, OpEnd>
    ensures { Answers (to_int_of v.now) result }
{
    let Some(text) = str_in(v) else {
        return Err(wrong_kind(alloc));
    };
    match number_in(text) {
        Some(number) => Ok(int(number)),
        None => Err(illegal_argument(alloc, v)),
    }
}

/// The number that a minus or none and one or more digits write; none where the text is another or the
/// number out of range.
pub fn number_in(text: &str) -> Option<i128>
    ensures { result ≡ number_in text.now }
{
    if text.starts_with('+') {
        return None;
    }
    text.parse::<i128>().ok()
}
