//! Escapes.

ghost use Rattle.std.specs.Prelude.{◌≡◌, ◌<◌, ◌^◌, drop, slice_index};
ghost use Rattle.rl_literal.specs.Escape.{character, escape_length, escaped, hex_digit, hex_number};

/// The character, or NUL past the end.
pub(crate) fn peek(text: &[char], at: usize) -> char
    ensures { result ≡ slice_index text.now at }
{
    if at < text.len() { text[at] } else { '\0' }
}

// The text behind its first character.
fn behind_first(text: &[char]) -> &[char]
    ensures { result.now ≡ drop 1 text.now }
{
    if text.is_empty() { text } else { &text[1..] }
}

fn hex_digit(c: char) -> u32
    ensures value { result ≡ hex_digit c }
    ensures small { result < 16 }
{
    match c {
        '0'..='9' => c as u32 - 48,
        'A'..='F' => c as u32 - 55,
        'a'..='f' => c as u32 - 87,
        _ => 0,
    }
}

fn hex_number(text: &[char]) -> u32
    ensures value { result ≡ hex_number text.now }
    ensures small { result < 2 ^ 16 }
{
    let first = hex_digit(peek(text, 0));
    let second = hex_digit(peek(text, 1));
    let third = hex_digit(peek(text, 2));
    let fourth = hex_digit(peek(text, 3));
    4096 * first + 256 * second + 16 * third + fourth
}

// The character of the number; the numbers of surrogates have none.
fn character(number: u32) -> char
    requires { number < 2 ^ 16 }
    ensures { result ≡ character number }
{
    match char::from_u32(number) {
        Some(c) => c,
        None => '\u{FFFD}',
    }
}

/// The character that is written behind a backslash.
#[tactic(auto, unfolding(crate::specs::Escape::escaped))]
pub(crate) fn escaped(text: &[char]) -> char
    ensures { result ≡ escaped text.now }
{
    match peek(text, 0) {
        'n' => '\n',
        't' => '\t',
        'r' => '\r',
        'b' => '\u{8}',
        'f' => '\u{C}',
        'u' => character(hex_number(behind_first(text))),
        c => c,
    }
}

/// How many characters write it.
pub(crate) fn escape_length(text: &[char]) -> usize
    ensures { result ≡ escape_length text.now }
{
    if peek(text, 0) == 'u' { 5 } else { 1 }
}
