//! Text between two marks: a piece of a string, a fragment, a character class; and comments.

ghost use Rattle.std.specs.Prelude.{◌≡◌, ◌≤◌, ◌<◌, ◌+◌, ◌^◌, length, IfSome, drop};
ghost use Rattle.rl_tokens.specs.Fault.{Notes};
ghost use Rattle.rl_tokens.specs.Quoted as spec;

use crate::fault::{Faults, Flaw};
use crate::hole::{class_escape_len, escape_len, fragment_escape_len, hole_len};
use crate::set::{Set, is_in, peek};

// What the text is.
#[derive(Clone, Copy, Debug)]
pub(crate) enum Form {
    Piece,
    Fragment,
    Class,
}

// What stands at a place of the text.
#[derive(Clone, Copy, Debug)]
pub(crate) enum Next {
    // The mark that ends it.
    Closes,
    // The `<` of an interpolation, which ends a piece.
    Opens,
    // The line end, which a piece does not pass.
    Stops,
    // A blank of a class.
    Blank,
    // A `-` of a class.
    Dash,
    // A character and as many more that belong to it.
    Passes(usize),
    // A character that has no meaning there.
    Bad,
}

// How a text ends.
#[derive(Clone, Copy, Debug)]
pub(crate) enum Ending {
    Closed,
    AtHole,
    Unclosed,
}

// What a `-` of a class has in front of it.
#[derive(Clone, Copy, Debug)]
pub(crate) enum Before {
    Nothing,
    Item,
    // Another `-`, which waits for its second character.
    Dash(u32),
}

// A text up to its end, an offset.
#[derive(Clone, Copy, Debug)]
pub(crate) struct Quoted {
    pub end: u32,
    pub ending: Ending,
}

fn escaped(len: usize) -> Next
    ensures { result ≡ spec.escaped len }
{
    if len == 0 {
        Next::Bad
    } else {
        Next::Passes(len)
    }
}

#[tactic(auto, unfolding(crate::specs::Quoted::next_of_piece))]
fn next_of_piece(text: &[char]) -> Next
    requires { 0 < length text.now }
    ensures value { result ≡ spec.next_of_piece text.now }
    ensures within { spec.IsWithin result (length text.now) }
{
    match text[0] {
        '"' => Next::Closes,
        '<' => Next::Opens,
        '\n' => Next::Stops,
        '\\' => escaped(escape_len(&text[1..])),
        _ => Next::Passes(0),
    }
}

#[tactic(auto, unfolding(crate::specs::Quoted::next_of_fragment))]
fn next_of_fragment(text: &[char]) -> Next
    requires { 0 < length text.now }
    ensures value { result ≡ spec.next_of_fragment text.now }
    ensures within { spec.IsWithin result (length text.now) }
{
    match text[0] {
        '`' => Next::Closes,
        '<' => escaped(hole_len(&text[1..])),
        '\\' => escaped(fragment_escape_len(&text[1..])),
        _ => Next::Passes(0),
    }
}

#[tactic(auto, unfolding(crate::specs::Quoted::next_of_class))]
fn next_of_class(text: &[char]) -> Next
    requires { 0 < length text.now }
    ensures value { result ≡ spec.next_of_class text.now }
    ensures within { spec.IsWithin result (length text.now) }
{
    match text[0] {
        ']' => Next::Closes,
        '-' => Next::Dash,
        '\\' => escaped(class_escape_len(&text[1..])),
        c if is_in(Set::Blank, c) => Next::Blank,
        _ => Next::Passes(0),
    }
}

fn next_of(form: Form, text: &[char]) -> Next
    requires { 0 < length text.now }
    ensures value { result ≡ spec.next form text.now }
    ensures within { spec.IsWithin result (length text.now) }
{
    match form {
        Form::Piece => next_of_piece(text),
        Form::Fragment => next_of_fragment(text),
        Form::Class => next_of_class(text),
    }
}

// What a `-` has in front of it behind a character.
fn behind_item(before: Before) -> Before
    ensures { result ≡ spec.behind_item before }
{
    match before {
        Before::Dash(_) => Before::Nothing,
        _ => Before::Item,
    }
}

// What a `-` has in front of it behind the `-` at the offset.
fn behind_dash(before: Before, offset: u32, faults: &mut Faults) -> Before
    ensures value { result ≡ spec.behind_dash before offset }
    ensures faults { Notes faults.old faults.new (spec.faults_of_dash before offset) }
{
    match before {
        Before::Nothing => {
            faults.note(Flaw::BadEscape, offset);
            Before::Nothing
        }
        Before::Item => Before::Dash(offset),
        Before::Dash(first) => {
            faults.note(Flaw::BadEscape, first);
            Before::Dash(offset)
        }
    }
}

// The end of a class leaves no `-` waiting.
fn close(before: Before, faults: &mut Faults)
    ensures { Notes faults.old faults.new (spec.faults_of_close before) }
{
    if let Before::Dash(first) = before {
        faults.note(Flaw::BadEscape, first);
    }
}

// The text whose first mark stands at the offset `start`, and what follows the mark.
#[tactic(auto, unfolding(crate::specs::Quoted::quoted))]
pub(crate) fn quoted_text(form: Form, start: u32, text: &[char], faults: &mut Faults) -> Quoted
    requires { start + 1 + length text.now ≤ 2 ^ 24 }
    ensures value { result ≡ (spec.quoted form start text.now).quoted }
    ensures faults { Notes faults.old faults.new (spec.quoted form start text.now).faults }
    ensures within { (start < result.end) × (result.end ≤ start + 1 + length text.now) }
{
    let quoted = inside(form, start + 1, text, faults);
    if let Ending::Unclosed = quoted.ending {
        faults.note(Flaw::OpenString, start);
    }
    quoted
}

fn inside(form: Form, offset: u32, text: &[char], faults: &mut Faults) -> Quoted
    requires { offset + length text.now ≤ 2 ^ 24 }
    ensures value { result ≡ (spec.inside form 0 Before.Nothing offset text.now).quoted }
    ensures faults { Notes faults.old faults.new
        (spec.inside form 0 Before.Nothing offset text.now).faults }
    ensures within { (offset ≤ result.end) × (result.end ≤ offset + length text.now) }
{
    let mut before = Before::Nothing;
    let mut at = 0;
    while at < text.len() {
        let here = offset + at as u32;
        match next_of(form, &text[at..]) {
            Next::Closes => {
                close(before, faults);
                return Quoted {
                    end: here + 1,
                    ending: Ending::Closed,
                };
            }
            Next::Opens => return Quoted {
                end: here + 1,
                ending: Ending::AtHole,
            },
            Next::Stops => return Quoted {
                end: here,
                ending: Ending::Unclosed,
            },
            Next::Blank => at += 1,
            Next::Dash => {
                before = behind_dash(before, here, faults);
                at += 1;
            }
            Next::Passes(more) => {
                before = behind_item(before);
                at += 1 + more;
            }
            Next::Bad => {
                faults.note(Flaw::BadEscape, here);
                at += 1;
            }
        }
    }
    Quoted {
        end: offset + at as u32,
        ending: Ending::Unclosed,
    }
}

// How many characters of a comment stand behind its `/*`, or none where it does not end.
#[tactic(auto, unfolding(crate::specs::Quoted::comment_len))]
pub(crate) fn comment_len(text: &[char]) -> Option<usize>
    ensures value { result ≡ spec.comment_len text.now }
    ensures within { IfSome result (λ len. (0 < len) × (len ≤ length text.now)) }
{
    for (at, c) in text.iter().enumerate() {
        if *c == '*' && peek(text, at + 1) == '/' {
            return Some(at + 2);
        }
    }
    None
}
