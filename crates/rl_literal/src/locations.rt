//! Locations.

ghost use Rattle.std.specs.Prelude.{◌≡◌, IfOk};
ghost use Rattle.rl_literal.specs.Location.{path_in, path_of};

use crate::escape::peek;
use crate::strings::{characters, name_of};
use rl_base::Name;
use std::alloc::{AllocError, Global};

// What stands between the eight characters `|cwd:///` and the last one.
fn path_of(text: &[char]) -> &[char]
    ensures { result.now ≡ path_of text.now }
{
    if text.len() < 9 {
        &[]
    } else {
        &text[8..text.len() - 1]
    }
}

/// The path of `|cwd:///path|`, and none of `|unknown:///|`.
#[tactic(auto, unfolding(crate::specs::Location::path_in))]
pub fn location(alloc: Global, token: &str) -> Result<Option<Name>, AllocError>
    ensures { IfOk result (λ path. path ≡ path_in token.now) }
{
    let characters = characters(alloc, token)?;
    if peek(&characters, 1) != 'c' {
        return Ok(None);
    }
    Ok(Some(name_of(alloc, path_of(&characters))?))
}
