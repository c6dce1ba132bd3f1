//! Escapes, and the holes of fragments.

ghost use Rattle.std.specs.Prelude.{◌≡◌, ◌≤◌, ◌<◌, length, slice_index};
ghost use Rattle.rl_tokens.specs.Hole as spec;

use crate::set::{Set, is_in, peek, run};
use crate::word::{begins, is_name};

// Whether a surrogate begins with the two digits of base 16.
fn is_surrogate(first: char, second: char) -> bool
    ensures { result ≡ spec.is_surrogate first second }
{
    (first == 'D' || first == 'd') && matches!(second, '8'..='9' | 'A'..='F' | 'a'..='f')
}

fn are_hex_digits(text: &[char]) -> bool
    ensures { result ≡ spec.are_hex_digits text.now }
{
    peek(text, 1).is_ascii_hexdigit()
        && peek(text, 2).is_ascii_hexdigit()
        && peek(text, 3).is_ascii_hexdigit()
        && peek(text, 4).is_ascii_hexdigit()
}

// Whether four digits of base 16 stand behind the `u`, and write no surrogate.
fn is_unicode(text: &[char]) -> bool
    ensures { result ≡ spec.is_unicode text.now }
{
    are_hex_digits(text) && !is_surrogate(peek(text, 1), peek(text, 2))
}

fn is_mark(c: char) -> bool
    ensures { result ≡ spec.is_mark c }
{
    matches!(
        c,
        '"' | '\'' | '\\' | '<' | '>' | 'n' | 't' | 'r' | 'b' | 'f'
    )
}

// How many characters of the escape stand behind the backslash; 0 where there is none.
#[tactic(auto, unfolding(crate::specs::Hole::escape_len))]
pub(crate) fn escape_len(text: &[char]) -> usize
    ensures value { result ≡ spec.escape_len text.now }
    ensures within { result ≤ length text.now }
{
    if is_mark(peek(text, 0)) {
        1
    } else if peek(text, 0) == 'u' && is_unicode(text) {
        5
    } else {
        0
    }
}

// The same inside a character class.
#[tactic(auto, unfolding(crate::specs::Hole::class_escape_len))]
pub(crate) fn class_escape_len(text: &[char]) -> usize
    ensures value { result ≡ spec.class_escape_len text.now }
    ensures within { result ≤ length text.now }
{
    if matches!(peek(text, 0), ' ' | '[' | ']' | '-') {
        1
    } else {
        escape_len(text)
    }
}

// The same inside a fragment.
#[tactic(auto, unfolding(crate::specs::Hole::fragment_escape_len))]
pub(crate) fn fragment_escape_len(text: &[char]) -> usize
    ensures value { result ≡ spec.fragment_escape_len text.now }
    ensures within { result ≤ length text.now }
{
    if matches!(peek(text, 0), '`' | '\\' | '<' | '>') {
        1
    } else {
        0
    }
}

// How many characters of the hole stand behind its `<`; 0 where there is none.
#[tactic(auto, unfolding(crate::specs::Hole::hole_len))]
pub(crate) fn hole_len(text: &[char]) -> usize
    ensures value { result ≡ spec.hole_len text.now }
    ensures within { result ≤ length text.now }
{
    let sort = run(Set::Blank, text);
    let gap = sort + run(Set::Word, &text[sort..]);
    let name = gap + run(Set::Blank, &text[gap..]);
    let end = name + run(Set::Word, &text[name..]);
    let close = end + run(Set::Blank, &text[end..]);
    let named = gap < name && is_name(&text[name..end]);
    if is_in(Set::Upper, peek(text, sort)) && named && peek(text, close) == '>' {
        close + 1
    } else {
        0
    }
}

// How many characters of the location stand at the front; 0 where there is none.
#[tactic(auto, unfolding(crate::specs::Hole::location_len))]
pub(crate) fn location_len(text: &[char]) -> usize
    ensures value { result ≡ spec.location_len text.now }
    ensures within { result ≤ length text.now }
{
    if begins("|unknown:///|", text) {
        13
    } else if begins("|cwd:///", text) {
        path_location_len(text)
    } else {
        0
    }
}

#[tactic(auto, unfolding(crate::specs::Hole::path_location_len))]
fn path_location_len(text: &[char]) -> usize
    requires { 8 ≤ length text.now }
    ensures value { result ≡ spec.path_location_len text.now }
    ensures within { result ≤ length text.now }
{
    let end = 8 + run(Set::Path, &text[8..]);
    if peek(text, end) == '|' { end + 1 } else { 0 }
}
