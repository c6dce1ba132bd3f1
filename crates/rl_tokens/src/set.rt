//! Sets of characters, and how far a text stays in one.

ghost use Rattle.std.specs.Prelude.{◌≡◌, ◌≤◌, length, drop, slice_index};
ghost use Rattle.std.specs.List.{prefix_len};
ghost use Rattle.rl_tokens.specs.Set.{is_in};

#[derive(Clone, Copy, Debug)]
pub(crate) enum Set {
    Blank,
    Digit,
    Letter,
    Upper,
    Word,
    // What the path of a location is made of.
    Path,
    // All but the line feed.
    Line,
}

pub(crate) fn is_in(set: Set, c: char) -> bool
    ensures { result ≡ is_in set c }
{
    match set {
        Set::Blank => c == ' ' || c == '\t' || c == '\r' || c == '\n',
        Set::Digit => c.is_ascii_digit(),
        Set::Letter => c.is_ascii_alphabetic() || c == '_',
        Set::Upper => c.is_ascii_uppercase(),
        Set::Word => c.is_ascii_alphanumeric() || c == '_',
        Set::Path => !(c.is_control() || c == '|'),
        Set::Line => c != '\n',
    }
}

// The character, or NUL past the end.
pub(crate) fn peek(text: &[char], at: usize) -> char
    ensures { result ≡ slice_index text.now at }
{
    if at < text.len() { text[at] } else { '\0' }
}

// The text behind so many characters.
pub(crate) fn behind(text: &[char], count: usize) -> &[char]
    ensures { result.now ≡ drop count text.now }
{
    if count < text.len() {
        &text[count..]
    } else {
        &[]
    }
}

// How many characters at the front are of the set.
pub(crate) fn run(set: Set, text: &[char]) -> usize
    ensures value { result ≡ prefix_len (is_in set) text.now }
    ensures within { result ≤ length text.now }
{
    let mut end = 0;
    while end < text.len() && is_in(set, text[end]) {
        end += 1;
    }
    end
}
