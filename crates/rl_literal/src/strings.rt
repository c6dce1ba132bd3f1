//! Strings.

ghost use Rattle.std.specs.Prelude.{◌≡◌, ◌++◌, IfOk, OnOk, encode_utf8_all};
ghost use Rattle.std.specs.Str.{chars};
ghost use Rattle.std.specs.String.{string_bytes};
ghost use Rattle.rl_literal.specs.Strings.{inner, string_in, unescaped};

use crate::escape::{escape_length, escaped};
use rl_base::Name;
use std::alloc::{AllocError, Global};

/// What is between the first and the last character.
pub(crate) fn inner(text: &[char]) -> &[char]
    ensures { result.now ≡ inner text.now }
{
    if text.len() < 2 {
        &[]
    } else {
        &text[1..text.len() - 1]
    }
}

// Adds the text.
fn add_text(text: &[char], out: &mut String) -> Result<(), AllocError>
    ensures { OnOk result (string_bytes out.new ≡ string_bytes out.old ++ encode_utf8_all text.now) }
{
    for c in text {
        out.push(*c)?;
    }
    Ok(())
}

/// The name of these characters.
pub(crate) fn name_of(alloc: Global, text: &[char]) -> Result<Name, AllocError>
    ensures { IfOk result (λ name. name ≡ encode_utf8_all text.now) }
{
    let mut name = String::new(alloc);
    add_text(text, &mut name)?;
    Name::from_str(alloc, name.as_str())
}

// Adds the text, its escapes read.
fn add_unescaped(text: &[char], out: &mut String) -> Result<(), AllocError>
    ensures { OnOk result (string_bytes out.new ≡ string_bytes out.old ++ encode_utf8_all (unescaped text.now)) }
{
    let mut rest = text;
    let mut pass = 0;
    'characters: while let Some((c, tail)) = rest.split_first() {
        if pass > 0 {
            pass -= 1;
        } else if *c == '\\' {
            out.push(escaped(tail))?;
            pass = escape_length(tail);
        } else {
            out.push(*c)?;
        }
        rest = tail;
    }
    Ok(())
}

/// The characters of the token.
pub(crate) fn characters(alloc: Global, token: &str) -> Result<Vec<char>, AllocError>
    ensures { IfOk result (λ characters. characters.items ≡ chars token.now) }
{
    token.chars().collect(alloc)
}

/// The text of a string, or of a piece of one, without the marks around it.
#[tactic(auto, unfolding(crate::specs::Strings::string_in))]
pub fn string(alloc: Global, token: &str) -> Result<Name, AllocError>
    ensures { IfOk result (λ text. text ≡ string_in token.now) }
{
    let characters = characters(alloc, token)?;
    let mut text = String::new(alloc);
    add_unescaped(inner(&characters), &mut text)?;
    Name::from_str(alloc, text.as_str())
}
