//! Which tokens are a terminal.

ghost use Rattle.std.specs.Prelude.{◌≡◌, ◌<◌, Some, length, slice_get};
ghost use Rattle.std.specs.Option.{option_map};
ghost use Rattle.rl_phrase.specs.Terminals.{is_word, is_terminal_of, is_terminal};

use rl_tokens::Tokens;
use rl_tokens::terminal::{ASSOC, BRACKET, ID, LEFT, LOWER_ID, RIGHT, START, UPPER_ID};

// Whether a text is the word of a terminal whose word is also a name.
fn is_word(text: &str, terminal: u32) -> bool
    ensures { result ≡ is_word text.now terminal }
{
    if terminal == LEFT {
        text == "left"
    } else if terminal == RIGHT {
        text == "right"
    } else if terminal == ASSOC {
        text == "assoc"
    } else if terminal == BRACKET {
        text == "bracket"
    } else if terminal == START {
        text == "start"
    } else {
        false
    }
}

// Whether a token of this kind and text is a terminal.
fn is_terminal_of(kind: u32, text: &str, terminal: u32) -> bool
    ensures { result ≡ is_terminal_of kind text.now terminal }
{
    kind == terminal
        || terminal == ID && (kind == UPPER_ID || kind == LOWER_ID)
        || kind == LOWER_ID && is_word(text, terminal)
}

// Whether a token is a terminal.
pub fn is_terminal(tokens: &Tokens, at: u32, terminal: u32) -> bool
    requires { at < length tokens.now }
    ensures { option_map (λ token. is_terminal token terminal) (slice_get tokens.now at) ≡ Some result }
{
    is_terminal_of(tokens.kind(at), tokens.text(at), terminal)
}
