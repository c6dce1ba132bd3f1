//! Fragments.

ghost use Rattle.std.specs.Prelude.{◌≡◌, ◌++◌, [], IfOk, OnOk};
ghost use Rattle.std.specs.String.{string_bytes};
ghost use Rattle.rl_literal.specs.Fragment.{fragment_in, hole, hole_length, hole_name, hole_sort, pieces, text_piece};

use crate::strings::{characters, inner, name_of};
use crate::words::{behind_blanks, behind_word, front_word};
use rl_base::{Name, Place, Row};
use rl_syntax::{PatternVariable, Piece};
use std::alloc::{AllocError, Global};

// The sort of the hole whose text stands at the front, behind its `<`.
#[tactic(auto, unfolding(crate::specs::Fragment::hole_sort))]
fn hole_sort(text: &[char]) -> &[char]
    ensures { result.now ≡ hole_sort text.now }
{
    front_word(behind_blanks(text))
}

// The name of its variable.
#[tactic(auto, unfolding(crate::specs::Fragment::hole_name))]
fn hole_name(text: &[char]) -> &[char]
    ensures { result.now ≡ hole_name text.now }
{
    front_word(behind_blanks(behind_word(behind_blanks(text))))
}

// How many characters stand up to its `>`, which counts.
#[tactic(auto, unfolding(crate::specs::Fragment::hole_length))]
fn hole_length(text: &[char]) -> usize
    ensures { result ≡ hole_length text.now }
{
    let mut end = 0;
    while end < text.len() && text[end] != '>' {
        end += 1;
    }
    end + 1
}

#[tactic(auto, unfolding(crate::specs::Fragment::hole))]
fn hole(alloc: Global, place: Place, text: &[char]) -> Result<Piece, AllocError>
    ensures { IfOk result (λ piece. piece ≡ hole place text.now) }
{
    let sort = name_of(alloc, hole_sort(text))?;
    let name = name_of(alloc, hole_name(text))?;
    Ok(Piece::Hole {
        sort,
        variable: PatternVariable {
            place,
            name,
            number: 0,
            is_test: false,
        },
    })
}

// Adds the text, unless it is empty, and makes it empty.
fn add_piece(alloc: Global, text: &mut String, found: &mut Vec<Piece>) -> Result<(), AllocError>
    ensures { OnOk result ((found.new.items ≡ found.old.items ++ text_piece (string_bytes text.old)) × (string_bytes text.new ≡ [])) }
{
    if !text.is_empty() {
        let name = Name::from_str(alloc, text.as_str())?;
        found.push(Piece::Text(name))?;
        text.clear();
    }
    Ok(())
}

// The pieces of a text.
fn pieces(alloc: Global, place: Place, text: &[char]) -> Result<Vec<Piece>, AllocError>
    ensures { IfOk result (λ found. found.items ≡ pieces place text.now) }
{
    let mut found = Vec::new(alloc);
    let mut front = String::new(alloc);
    let mut rest = text;
    let mut pass = 0;
    let mut escape = false;
    'characters: while let Some((c, tail)) = rest.split_first() {
        if pass > 0 {
            pass -= 1;
        } else if escape {
            front.push(*c)?;
            escape = false;
        } else if *c == '<' {
            add_piece(alloc, &mut front, &mut found)?;
            found.push(hole(alloc, place, tail)?)?;
            pass = hole_length(tail);
        } else if *c == '\\' {
            escape = true;
        } else {
            front.push(*c)?;
        }
        rest = tail;
    }
    add_piece(alloc, &mut front, &mut found)?;
    Ok(found)
}

/// The pieces of the fragment between backquotes. The variables of its holes have the place.
#[tactic(auto, unfolding(crate::specs::Fragment::fragment_in))]
pub fn fragment(alloc: Global, place: Place, token: &str) -> Result<Row<Piece>, AllocError>
    ensures { IfOk result (λ found. found ≡ fragment_in place token.now) }
{
    let characters = characters(alloc, token)?;
    Row::from_vec(alloc, pieces(alloc, place, inner(&characters))?)
}
