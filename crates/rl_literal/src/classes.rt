//! Character classes.

ghost use Rattle.std.specs.Prelude.{◌≡◌, IfOk};
ghost use Rattle.rl_literal.specs.Class.{class_in, item, items, ranges};

use crate::escape::{escape_length, escaped};
use crate::strings::{characters, inner};
use crate::words::is_blank;
use rl_base::Row;
use std::alloc::{AllocError, Global};

// The character, or none where it joins those beside it.
fn item(c: char) -> Option<char>
    ensures { result ≡ item c }
{
    if c == '-' { None } else { Some(c) }
}

// The characters of a class, its blanks left out and its escapes read, and none for each `-`.
fn items(alloc: Global, text: &[char]) -> Result<Vec<Option<char>>, AllocError>
    ensures { IfOk result (λ found. found.items ≡ items text.now) }
{
    let mut found = Vec::new(alloc);
    let mut rest = text;
    let mut pass = 0;
    'characters: while let Some((c, tail)) = rest.split_first() {
        if pass > 0 {
            pass -= 1;
        } else if *c == '\\' {
            found.push(Some(escaped(tail)))?;
            pass = escape_length(tail);
        } else if !is_blank(*c) {
            found.push(item(*c))?;
        }
        rest = tail;
    }
    Ok(found)
}

// The ranges of the characters, from the first to the last of each.
fn ranges(alloc: Global, items: &[Option<char>]) -> Result<Vec<(char, char)>, AllocError>
    ensures { IfOk result (λ found. found.items ≡ ranges items.now) }
{
    let mut found = Vec::new(alloc);
    let mut rest = items;
    'items: while let Some((item, tail)) = rest.split_first() {
        match (item, tail) {
            (Some(first), [None, Some(last), behind @ ..]) => {
                found.push((*first, *last))?;
                rest = behind;
            }
            (Some(c), _) => {
                found.push((*c, *c))?;
                rest = tail;
            }
            (None, _) => rest = tail,
        }
    }
    Ok(found)
}

/// The first and the last character of each range of the class `[..]`, in text order. A single character has itself twice.
#[tactic(auto, unfolding(crate::specs::Class::class_in))]
pub fn class(alloc: Global, token: &str) -> Result<Row<(char, char)>, AllocError>
    ensures { IfOk result (λ found. found ≡ class_in token.now) }
{
    let characters = characters(alloc, token)?;
    let items = items(alloc, inner(&characters))?;
    Row::from_vec(alloc, ranges(alloc, &items)?)
}
