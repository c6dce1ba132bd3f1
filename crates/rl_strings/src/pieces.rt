//! split and replaceAll.

ghost use Rattle.std.specs.Prelude.{◌≡◌, ◌<◌, [], ◌++◌, ◌∷◌, IfOk, map, length};
ghost use Rattle.std.specs.String.{string_bytes};
ghost use Rattle.rl_value.specs.Plain.{text};
ghost use Rattle.rl_exception.specs.Answer.{Answers, Ends, throwing};
ghost use Rattle.rl_exception.specs.Exceptions.{illegal_argument};
ghost use Rattle.rl_arguments.specs.Lists.{BuildsList};
ghost use Rattle.rl_strings.specs.Pieces.{pieces, all_pieces, joined, split_by, split_of, replaced, replace_all_of};

use rl_arguments::str_in;
use rl_exception::{OpEnd, fitted_list, fitted_text, illegal_argument, unbuilt, wrong_kind};
use rl_value::{BuildEnd, Value, text};
use std::alloc::{AllocError, Global};

/// The pieces of a text around a separator, from the left.
pub fn split(alloc: Global, separator: &Value, whole: &Value) -> Result<Value, OpEnd>
    ensures { Answers (split_of separator.now whole.now) result }
{
    let (Some(separator), Some(whole)) = (str_in(separator), str_in(whole)) else {
        return Err(wrong_kind(alloc));
    };
    split_by(alloc, separator, whole)
}

fn split_by(alloc: Global, separator: &str, whole: &str) -> Result<Value, OpEnd>
    ensures { Answers (split_by separator.now whole.now) result }
{
    if separator.is_empty() {
        return Err(empty_argument(alloc));
    }
    match all_pieces(alloc, separator, whole) {
        Ok(pieces) => fitted_list(alloc, pieces),
        Err(end) => Err(unbuilt(alloc, end)),
    }
}

// `IllegalArgument("")`
fn empty_argument(alloc: Global) -> OpEnd
    ensures { Ends (throwing (illegal_argument (text []))) result }
{
    match text(alloc, "") {
        Ok(argument) => illegal_argument(alloc, &argument),
        Err(_) => OpEnd::OutOfMemory,
    }
}

fn all_pieces(alloc: Global, separator: &str, whole: &str) -> Result<Vec<Value>, BuildEnd>
    requires { 0 < length separator.now }
    ensures { BuildsList (map text (all_pieces separator.now whole.now)) result }
{
    let mut pieces = Vec::new(alloc);
    let mut rest = whole;
    while let Some((piece, behind)) = rest.split_once(separator) {
        match text(alloc, piece) {
            Ok(piece) => pieces.push(piece)?,
            Err(end) => return Err(end),
        }
        rest = behind;
    }
    match text(alloc, rest) {
        Ok(piece) => pieces.push(piece)?,
        Err(end) => return Err(end),
    }
    Ok(pieces)
}

/// A text with another in place of each occurrence of a part, from the left.
pub fn replace_all(
    alloc: Global,
    whole: &Value,
    part: &Value,
    replacement: &Value,
) -> Result<Value, OpEnd>
    ensures { Answers (replace_all_of whole.now part.now replacement.now) result }
{
    let (Some(whole), Some(part), Some(replacement)) = (
        str_in(whole),
        str_in(part),
        str_in(replacement),
    ) else {
        return Err(wrong_kind(alloc));
    };
    replaced(alloc, whole, part, replacement)
}

fn replaced(alloc: Global, whole: &str, part: &str, replacement: &str) -> Result<Value, OpEnd>
    ensures { Answers (replaced whole.now part.now replacement.now) result }
{
    if part.is_empty() {
        return Err(empty_argument(alloc));
    }
    let text = with_replacement(alloc, whole, part, replacement)?;
    fitted_text(alloc, text.as_str())
}

fn with_replacement(
    alloc: Global,
    whole: &str,
    part: &str,
    replacement: &str,
) -> Result<String, AllocError>
    requires { 0 < length part.now }
    ensures { IfOk result (λ s. string_bytes s ≡ joined replacement.now (all_pieces part.now whole.now)) }
{
    let mut out = String::new(alloc);
    let mut rest = whole;
    while let Some((piece, behind)) = rest.split_once(part) {
        out.push_str(piece)?;
        out.push_str(replacement)?;
        rest = behind;
    }
    out.push_str(rest)?;
    Ok(out)
}
