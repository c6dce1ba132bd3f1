//! What stands at the front of a text: a token, a blank or a comment.

ghost use Rattle.std.specs.Prelude.{◌≡◌, ◌≤◌, ◌<◌, ◌+◌, ◌^◌, length, slice_index, true};
ghost use Rattle.rl_tokens.specs.Fault.{Notes};
ghost use Rattle.rl_tokens.specs.Set.{is_in};
ghost use Rattle.rl_tokens.specs.Lexeme as spec;

use crate::fault::{Faults, Flaw};
use crate::hole::location_len;
use crate::number::{integer_len, is_wide};
use crate::quoted::{Ending, Form, Quoted, comment_len, quoted_text};
use crate::set::{Set, behind, is_in, peek, run};
use crate::terminal::{
    CHARACTER_CLASS, FRAGMENT, GREATER, INTEGER, KEYWORD, LAYOUT, LESS, LEXICAL, LOCATION,
    SEMICOLON, STRING, STRING_HEAD, STRING_MIDDLE, STRING_TAIL, SYNTAX,
};
use crate::word::{symbol, word};

// What is open at a place of the text.
#[derive(Clone, Copy, Debug)]
pub(crate) enum Open {
    // An interpolation of the string that begins at the offset.
    Interpolation(u32),
    // A `<` of an interpolation.
    Angle,
    // A bracket of an interpolation.
    Bracket,
}

// What a token does to what is open.
#[derive(Clone, Copy, Debug)]
pub(crate) enum Nest {
    Stays,
    Opens(Open),
    Closes,
}

// A token, a blank or a comment up to its end, an offset. What is no token has no kind.
#[derive(Clone, Copy, Debug)]
pub(crate) struct Lexeme {
    pub kind: Option<u32>,
    pub end: u32,
    pub nest: Nest,
}

fn skipped(end: u32) -> Lexeme
    ensures { result ≡ spec.skipped end }
{
    Lexeme {
        kind: None,
        end,
        nest: Nest::Stays,
    }
}

fn simple(kind: u32, end: u32) -> Lexeme
    ensures { result ≡ spec.simple kind end }
{
    Lexeme {
        kind: Some(kind),
        end,
        nest: Nest::Stays,
    }
}

// The kind of what begins at the front, by its first two characters.
#[derive(Clone, Copy, Debug)]
enum Lead {
    Blank,
    LineComment,
    Comment,
    String,
    Fragment,
    Class,
    Word,
    Integer,
    Other,
}

#[tactic(auto, unfolding(crate::specs::Lexeme::lead))]
fn lead_of(offset: u32, grammar: bool, c: char, next: char) -> Lead
    ensures value { result ≡ spec.lead offset grammar c next }
    ensures letter { result ≡ Lead.Word → is_in Set.Letter c ≡ true }
    ensures digit { result ≡ Lead.Integer → is_in Set.Digit c ≡ true }
{
    match c {
        '\u{FEFF}' if offset == 0 => Lead::Blank,
        '/' if next == '/' => Lead::LineComment,
        '/' if next == '*' => Lead::Comment,
        '"' => Lead::String,
        '`' => Lead::Fragment,
        '[' if grammar => Lead::Class,
        _ => plain_lead(c),
    }
}

fn plain_lead(c: char) -> Lead
    ensures value { result ≡ spec.plain_lead c }
    ensures letter { result ≡ Lead.Word → is_in Set.Letter c ≡ true }
    ensures digit { result ≡ Lead.Integer → is_in Set.Digit c ≡ true }
{
    if is_in(Set::Blank, c) {
        Lead::Blank
    } else if is_in(Set::Letter, c) {
        Lead::Word
    } else if is_in(Set::Digit, c) {
        Lead::Integer
    } else {
        Lead::Other
    }
}

// The comment whose `/*` stands at the offset.
fn comment(offset: u32, text: &[char], faults: &mut Faults) -> Lexeme
    requires some { 0 < length text.now }
    requires fits { offset + length text.now ≤ 2 ^ 24 }
    ensures value { result ≡ (spec.comment offset text.now).lexeme }
    ensures faults { Notes faults.old faults.new (spec.comment offset text.now).faults }
    ensures within { (offset < result.end) × (result.end ≤ offset + length text.now) }
{
    match comment_len(behind(text, 2)) {
        Some(len) => skipped(offset + 2 + len as u32),
        None => {
            faults.note(Flaw::OpenComment, offset);
            skipped(offset + text.len() as u32)
        }
    }
}

fn integer(offset: u32, text: &[char], faults: &mut Faults) -> Lexeme
    requires digit { is_in Set.Digit (slice_index text.now 0) ≡ true }
    requires fits { offset + length text.now ≤ 2 ^ 24 }
    ensures value { result ≡ (spec.integer offset text.now).lexeme }
    ensures faults { Notes faults.old faults.new (spec.integer offset text.now).faults }
    ensures within { (offset < result.end) × (result.end ≤ offset + length text.now) }
{
    let len = integer_len(text);
    if is_wide(&text[..len]) {
        faults.note(Flaw::WideNumber, offset);
        skipped(offset + len as u32)
    } else {
        simple(INTEGER, offset + len as u32)
    }
}

// A string from its `"` at the offset.
fn string(offset: u32, quoted: Quoted) -> Lexeme
    ensures { result ≡ spec.string offset quoted }
{
    let (kind, nest) = match quoted.ending {
        Ending::Closed => (Some(STRING), Nest::Stays),
        Ending::AtHole => (Some(STRING_HEAD), Nest::Opens(Open::Interpolation(offset))),
        Ending::Unclosed => (None, Nest::Stays),
    };
    Lexeme {
        kind,
        end: quoted.end,
        nest,
    }
}

// A string from the `>` that ends an interpolation.
fn string_rest(quoted: Quoted) -> Lexeme
    ensures { result ≡ spec.string_rest quoted }
{
    let (kind, nest) = match quoted.ending {
        Ending::Closed => (Some(STRING_TAIL), Nest::Closes),
        Ending::AtHole => (Some(STRING_MIDDLE), Nest::Stays),
        Ending::Unclosed => (None, Nest::Closes),
    };
    Lexeme {
        kind,
        end: quoted.end,
        nest,
    }
}

// A fragment or a character class.
fn whole(kind: u32, quoted: Quoted) -> Lexeme
    ensures { result ≡ spec.whole kind quoted }
{
    match quoted.ending {
        Ending::Closed => simple(kind, quoted.end),
        _ => skipped(quoted.end),
    }
}

// What a symbol does to what is open innermost, by its first character.
fn nest_of(inner: Option<Open>, c: char) -> Nest
    ensures { result ≡ spec.nest inner c }
{
    match inner {
        None => Nest::Stays,
        Some(inner) => nest_in(inner, c),
    }
}

fn nest_in(inner: Open, c: char) -> Nest
    ensures { result ≡ spec.nest_in inner c }
{
    match c {
        '(' | '[' | '{' => Nest::Opens(Open::Bracket),
        ')' | ']' | '}' => match inner {
            Open::Bracket => Nest::Closes,
            _ => Nest::Stays,
        },
        '<' => match inner {
            Open::Bracket => Nest::Stays,
            _ => Nest::Opens(Open::Angle),
        },
        '>' => match inner {
            Open::Angle => Nest::Closes,
            _ => Nest::Stays,
        },
        _ => Nest::Stays,
    }
}

// Whether `<` and `>` are tokens of one character.
fn is_angled(inner: Option<Open>) -> bool
    ensures { result ≡ spec.is_angled inner }
{
    match inner {
        None | Some(Open::Bracket) => false,
        Some(_) => true,
    }
}

fn is_interpolation(inner: Option<Open>) -> bool
    ensures { result ≡ spec.is_interpolation inner }
{
    matches!(inner, Some(Open::Interpolation(_)))
}

// An angle of an interpolation.
fn angle(offset: u32, inner: Option<Open>, c: char) -> Lexeme
    requires { offset < 2 ^ 24 }
    ensures { result ≡ spec.angle offset inner c }
{
    Lexeme {
        kind: Some(if c == '<' { LESS } else { GREATER }),
        end: offset + 1,
        nest: nest_of(inner, c),
    }
}

fn symbol_lexeme(
    offset: u32,
    grammar: bool,
    inner: Option<Open>,
    text: &[char],
    faults: &mut Faults,
) -> Lexeme
    requires some { 0 < length text.now }
    requires fits { offset + length text.now ≤ 2 ^ 24 }
    ensures value { result ≡ (spec.symbol_lexeme offset grammar inner text.now).lexeme }
    ensures faults { Notes faults.old faults.new
        (spec.symbol_lexeme offset grammar inner text.now).faults }
    ensures within { (offset < result.end) × (result.end ≤ offset + length text.now) }
{
    match symbol(grammar, text) {
        Some((len, kind)) => Lexeme {
            kind: Some(kind),
            end: offset + len as u32,
            nest: nest_of(inner, text[0]),
        },
        None => {
            faults.note(Flaw::BadCharacter, offset);
            skipped(offset + 1)
        }
    }
}

fn word_lexeme(offset: u32, text: &[char]) -> Lexeme
    requires letter { is_in Set.Letter (slice_index text.now 0) ≡ true }
    requires fits { offset + length text.now ≤ 2 ^ 24 }
    ensures value { result ≡ spec.word_lexeme offset text.now }
    ensures within { (offset < result.end) × (result.end ≤ offset + length text.now) }
{
    let (len, kind) = word(text);
    simple(kind, offset + len as u32)
}

// A location or a symbol.
#[tactic(auto, unfolding(crate::specs::Lexeme::other))]
fn other(
    offset: u32,
    grammar: bool,
    inner: Option<Open>,
    text: &[char],
    faults: &mut Faults,
) -> Lexeme
    requires some { 0 < length text.now }
    requires fits { offset + length text.now ≤ 2 ^ 24 }
    ensures value { result ≡ (spec.other offset grammar inner text.now).lexeme }
    ensures faults { Notes faults.old faults.new (spec.other offset grammar inner text.now).faults }
    ensures within { (offset < result.end) × (result.end ≤ offset + length text.now) }
{
    let len = location_len(text);
    if len > 0 {
        return simple(LOCATION, offset + len as u32);
    }
    if is_angled(inner) && (text[0] == '<' || text[0] == '>') {
        return angle(offset, inner, text[0]);
    }
    symbol_lexeme(offset, grammar, inner, text, faults)
}

// What stands at the offset, in a syntax definition or elsewhere, where this is open innermost.
#[tactic(auto, unfolding(crate::specs::Lexeme::front))]
pub(crate) fn front(
    offset: u32,
    grammar: bool,
    inner: Option<Open>,
    text: &[char],
    faults: &mut Faults,
) -> Lexeme
    requires some { 0 < length text.now }
    requires fits { offset + length text.now ≤ 2 ^ 24 }
    ensures value { result ≡ (spec.front offset grammar inner text.now).lexeme }
    ensures faults { Notes faults.old faults.new (spec.front offset grammar inner text.now).faults }
    ensures within { (offset < result.end) × (result.end ≤ offset + length text.now) }
{
    if is_interpolation(inner) && text[0] == '>' {
        return string_rest(quoted_text(Form::Piece, offset, &text[1..], faults));
    }
    match lead_of(offset, grammar, text[0], peek(text, 1)) {
        Lead::Blank => skipped(offset + 1),
        Lead::LineComment => skipped(offset + 1 + run(Set::Line, &text[1..]) as u32),
        Lead::Comment => comment(offset, text, faults),
        Lead::String => string(offset, quoted_text(Form::Piece, offset, &text[1..], faults)),
        Lead::Fragment => whole(
            FRAGMENT,
            quoted_text(Form::Fragment, offset, &text[1..], faults),
        ),
        Lead::Class => whole(
            CHARACTER_CLASS,
            quoted_text(Form::Class, offset, &text[1..], faults),
        ),
        Lead::Word => word_lexeme(offset, text),
        Lead::Integer => integer(offset, text, faults),
        Lead::Other => other(offset, grammar, inner, text, faults),
    }
}

// Whether a syntax definition is being read behind a token of the kind.
pub(crate) fn grammar_behind(grammar: bool, kind: Option<u32>) -> bool
    ensures { result ≡ spec.grammar_behind grammar kind }
{
    match kind {
        Some(SYNTAX | LEXICAL | LAYOUT | KEYWORD) => true,
        Some(SEMICOLON) => false,
        _ => grammar,
    }
}
