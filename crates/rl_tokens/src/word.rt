//! Words and symbols, by tables of the terminals.

ghost use Rattle.std.specs.Prelude.{◌≡◌, ◌≤◌, ◌<◌, length, map, IfSome, slice_index, true, Bool, List, ℕ, ◌∷◌, Some};
ghost use Rattle.rl_tokens.specs.Set.{is_in};
ghost use Rattle.rl_tokens.specs.Word as spec;

use crate::set::{Set, is_in, peek, run};
use crate::terminal::{
    CLOSE_BRACE, CLOSE_BRACKET, CLOSE_PARENTHESIS, COMMA, GRAMMAR_SYMBOLS, HYPHENED, LOWER_ID,
    OPEN_BRACE, OPEN_BRACKET, OPEN_PARENTHESIS, SEMICOLON, SYMBOLS, UPPER_ID, WORDS_OF_EIGHT,
    WORDS_OF_FIVE, WORDS_OF_FOUR, WORDS_OF_NINE, WORDS_OF_ONE, WORDS_OF_SEVEN, WORDS_OF_SIX,
    WORDS_OF_THREE, WORDS_OF_TWO,
};

// Whether the text begins with the word, which is ASCII.
pub(crate) fn begins(word: &str, text: &[char]) -> bool
    ensures value { result ≡ spec.begins word.now text.now }
    ensures within { result ≡ true → length word.now ≤ length text.now }
{
    begins_with(word.as_bytes(), text)
}

fn begins_with(word: &[u8], text: &[char]) -> bool
    ensures value { result ≡ spec.begins word.now text.now }
    ensures within { result ≡ true → length word.now ≤ length text.now }
{
    for (k, b) in word.iter().enumerate() {
        if text.len() <= k {
            return false;
        }
        if text[k] != char::from(*b) {
            return false;
        }
    }
    true
}

// The first row whose text begins this one: the length of its text and its number.
fn first_row(mut table: &[(&str, u32)], text: &[char]) -> Option<(usize, u32)>
    requires { spec.has_no_empty (map (λ row. (row.0.now, row.1)) table.now) ≡ true }
    ensures value { result
        ≡ spec.first_row (map (λ row. (row.0.now, row.1)) table.entry.now) text.now }
    ensures within { IfSome result (λ found. (0 < found.0) × (found.0 ≤ length text.now)) }
{
    while let [row, rest @ ..] = table {
        if begins(row.0, text) {
            return Some((row.0.len(), row.1));
        }
        table = rest;
    }
    None
}

// The number of the reserved word, or none.
fn reserved(word: &[char]) -> Option<u32>
    ensures { result ≡ spec.reserved word.now }
{
    lookup(words_of(word.len()), word)
}

// The reserved words of a length.
fn words_of(len: usize) -> &'static [(&'static str, u32)]
    ensures { (word : List ℕ) → length word ≡ len
        → spec.lookup (map (λ row. (row.0.now, row.1)) result.now) word ≡ spec.reserved word }
{
    match len {
        1 => &WORDS_OF_ONE,
        2 => &WORDS_OF_TWO,
        3 => &WORDS_OF_THREE,
        4 => &WORDS_OF_FOUR,
        5 => &WORDS_OF_FIVE,
        6 => &WORDS_OF_SIX,
        7 => &WORDS_OF_SEVEN,
        8 => &WORDS_OF_EIGHT,
        9 => &WORDS_OF_NINE,
        _ => &[],
    }
}

fn lookup(mut table: &[(&str, u32)], word: &[char]) -> Option<u32>
    ensures { result ≡ spec.lookup (map (λ row. (row.0.now, row.1)) table.entry.now) word.now }
{
    while let [row, rest @ ..] = table {
        if row.0.len() == word.len() && begins(row.0, word) {
            return Some(row.1);
        }
        table = rest;
    }
    None
}

// Whether the word is a name.
pub(crate) fn is_name(word: &[char]) -> bool
    ensures { result ≡ spec.is_name word.now }
{
    is_in(Set::Letter, peek(word, 0)) && reserved(word).is_none()
}

// The word at the front, which begins with a letter: its length and its number.
#[tactic(auto, unfolding(crate::specs::Word::word))]
pub(crate) fn word(text: &[char]) -> (usize, u32)
    requires { is_in Set.Letter (slice_index text.now 0) ≡ true }
    ensures value { result ≡ spec.word text.now }
    ensures within { (0 < result.0) × (result.0 ≤ length text.now) }
{
    match first_row(&HYPHENED, text) {
        Some(found) => found,
        None => {
            let len = run(Set::Word, text);
            (len, plain_word(&text[..len]))
        }
    }
}

fn plain_word(word: &[char]) -> u32
    ensures { result ≡ spec.plain_word word.now }
{
    match reserved(word) {
        Some(number) => number,
        None => name(word),
    }
}

fn name(word: &[char]) -> u32
    ensures { result ≡ spec.name word.now }
{
    if is_in(Set::Upper, peek(word, 0)) {
        UPPER_ID
    } else {
        LOWER_ID
    }
}

// The longest symbol at the front, in a syntax definition or elsewhere: its length and its number.
#[tactic(auto, unfolding(crate::specs::Word::symbol))]
pub(crate) fn symbol(grammar: bool, text: &[char]) -> Option<(usize, u32)>
    ensures value { result ≡ spec.symbol grammar text.now }
    ensures within { IfSome result (λ found. (0 < found.0) × (found.0 ≤ length text.now)) }
{
    match mark(peek(text, 0)) {
        Some(number) => Some((1, number)),
        None => longest_symbol(grammar, text),
    }
}

#[tactic(auto, unfolding(crate::specs::Word::symbol))]
fn longest_symbol(grammar: bool, text: &[char]) -> Option<(usize, u32)>
    ensures value { result ≡ spec.symbol grammar text.now }
    ensures within { IfSome result (λ found. (0 < found.0) × (found.0 ≤ length text.now)) }
{
    match grammar_symbol(grammar, text) {
        Some(found) => Some(found),
        None => first_row(&SYMBOLS, text),
    }
}

// The number of a mark that begins no longer symbol, of the most common ones.
fn mark(c: char) -> Option<u32>
    ensures value { IfSome result (λ number.
        (grammar : Bool) → (rest : List ℕ) → spec.symbol grammar (c ∷ rest) ≡ Some (1, number)) }
    ensures text { IfSome result (λ _. 0 < c) }
{
    match c {
        '(' => Some(OPEN_PARENTHESIS),
        ')' => Some(CLOSE_PARENTHESIS),
        '[' => Some(OPEN_BRACKET),
        ']' => Some(CLOSE_BRACKET),
        '{' => Some(OPEN_BRACE),
        '}' => Some(CLOSE_BRACE),
        ',' => Some(COMMA),
        ';' => Some(SEMICOLON),
        _ => None,
    }
}

#[tactic(auto, unfolding(crate::specs::Word::grammar_symbol))]
fn grammar_symbol(grammar: bool, text: &[char]) -> Option<(usize, u32)>
    ensures value { result ≡ spec.grammar_symbol grammar text.now }
    ensures within { IfSome result (λ found. (0 < found.0) × (found.0 ≤ length text.now)) }
{
    if grammar {
        first_row(&GRAMMAR_SYMBOLS, text)
    } else {
        None
    }
}
