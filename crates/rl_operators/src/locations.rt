//! Locations and texts.
ghost use Rattle.std.specs.Prelude.{◌≡◌, ◌++◌, IfOk, None, string_bytes};
ghost use Rattle.rl_value.specs.Plain.{location, text};
ghost use Rattle.rl_exception.specs.Answer.{fitting, Answers};
ghost use Rattle.rl_operators.specs.Locations.{with_segment};

use rl_exception::{OpEnd, fitted_location, fitted_text};
use rl_value::{Scheme, Value};
use std::alloc::{AllocError, Global};

// The path with one more segment, after a slash unless it is empty.
fn with_segment(alloc: Global, path: &str, segment: &str) -> Result<String, AllocError>
    ensures { IfOk result (λ s. string_bytes s ≡ with_segment path.now segment.now) }
{
    let mut joined = String::from_str(alloc, path)?;
    if !path.is_empty() {
        joined.push_str("/")?;
    }
    joined.push_str(segment)?;
    Ok(joined)
}

/// The location without its span, with one more segment of its path.
pub(crate) fn add_segment(
    alloc: Global,
    scheme: Scheme,
    path: &str,
    segment: &str,
) -> Result<Value, OpEnd>
    ensures { Answers (fitting (location scheme (with_segment path.now segment.now) None)) result }
{
    match with_segment(alloc, path, segment) {
        Ok(path) => fitted_location(alloc, scheme, path.as_str(), None),
        Err(end) => Err(OpEnd::from(end)),
    }
}

fn joined_text(alloc: Global, a: &str, b: &str) -> Result<String, AllocError>
    ensures { IfOk result (λ s. string_bytes s ≡ a.now ++ b.now) }
{
    let mut joined = String::from_str(alloc, a)?;
    joined.push_str(b)?;
    Ok(joined)
}

pub(crate) fn join_texts(alloc: Global, a: &str, b: &str) -> Result<Value, OpEnd>
    ensures { Answers (fitting (text (a.now ++ b.now))) result }
{
    match joined_text(alloc, a, b) {
        Ok(joined) => fitted_text(alloc, joined.as_str()),
        Err(end) => Err(OpEnd::from(end)),
    }
}
