//! What operands ask for, and the exception that is thrown where they ask in vain.

ghost use Rattle.std.specs.Prelude.{◌≡◌, ◌<ℤ◌, pos, length, IfOk};
ghost use Rattle.std.specs.Str.{chars};
ghost use Rattle.std.specs.String.{string_bytes};
ghost use Rattle.rl_access.specs.Operands.{place_of, piece_of};

use rl_value::Value;
use std::alloc::{AllocError, Global};

/// The place that an index names among `count` elements. A negative one counts from the end.
pub(crate) fn place_of(count: usize, index: i128) -> Option<usize>
    ensures { result ≡ place_of count index }
{
    if index < 0 {
        return from_end(count, index);
    }
    match usize::try_from(index) {
        Ok(place) if place < count => Some(place),
        _ => None,
    }
}

// The same of a negative index.
fn from_end(count: usize, index: i128) -> Option<usize>
    requires { index <ℤ pos 0 }
    ensures { result ≡ place_of count index }
{
    match usize::try_from(index.unsigned_abs()) {
        Ok(behind) if behind <= count => Some(count - behind),
        _ => None,
    }
}

/// The values, shared.
pub(crate) fn shared(alloc: Global, values: &[Value]) -> Result<Vec<Value>, AllocError>
    ensures { IfOk result (λ shares. shares.items ≡ values.now) }
{
    let mut shares = Vec::with_capacity(alloc, values.len())?;
    for value in values {
        shares.push(value.share()?)?;
    }
    Ok(shares)
}

/// How many characters a text has.
pub(crate) fn character_count(text: &str) -> usize
    ensures { result ≡ length (chars text.now) }
{
    text.chars().count()
}

/// This many characters of a text from a place on.
pub(crate) fn piece(
    alloc: Global,
    text: &str,
    place: usize,
    count: usize,
) -> Result<String, AllocError>
    ensures { IfOk result (λ found. string_bytes found ≡ piece_of text.now place count) }
{
    text.chars().skip(place).take(count).collect(alloc)
}
