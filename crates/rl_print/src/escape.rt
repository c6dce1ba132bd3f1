//! Characters that are written behind a backslash.
ghost use Rattle.std.specs.Prelude.{◌≡◌, ◌++◌, OnOk, encode_utf8};
ghost use Rattle.std.specs.String.{string_bytes};
ghost use Rattle.rl_print.specs.Escape.{escape_of, written, escaped};

use std::alloc::AllocError;

/// Which characters of a text are written behind a backslash.
#[derive(Clone, Copy, Debug, PartialEq, Eq)]
pub(crate) enum Escapes {
    /// None: the text as it is.
    Raw,
    /// Those of a text between quotes.
    Quoted,
    /// Those of a text between backquotes.
    Backquoted,
}

// What stands behind the backslash in place of a character that is escaped.
fn escape_of(escapes: Escapes, c: char) -> Option<char>
    ensures { result ≡ escape_of escapes c }
{
    match escapes {
        Escapes::Raw => None,
        Escapes::Quoted => match c {
            '"' | '\\' | '<' | '>' => Some(c),
            '\n' => Some('n'),
            '\t' => Some('t'),
            '\r' => Some('r'),
            _ => None,
        },
        Escapes::Backquoted => match c {
            '`' | '\\' | '<' | '>' => Some(c),
            _ => None,
        },
    }
}

fn push_escaped_char(out: &mut String, escapes: Escapes, c: char) -> Result<(), AllocError>
    ensures { OnOk result (string_bytes out.new ≡ string_bytes out.old ++ escaped escapes (encode_utf8 c)) }
{
    match escape_of(escapes, c) {
        Some(letter) => {
            out.push('\\')?;
            out.push(letter)
        }
        None => out.push(c),
    }
}

/// Appends a text with its escapes.
pub(crate) fn push_escaped(out: &mut String, escapes: Escapes, text: &str) -> Result<(), AllocError>
    ensures { OnOk result (string_bytes out.new ≡ string_bytes out.old ++ escaped escapes text.now) }
{
    for c in text.chars() {
        push_escaped_char(out, escapes, c)?;
    }
    Ok(())
}
