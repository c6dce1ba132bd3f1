//! The text of a module, cut into tokens.

ghost use Rattle.std.specs.Prelude.{◌≡◌};
ghost use Rattle.rl_reader.specs.Source.{kind_at, offset_at, place_at, place_within, text_at};

use rl_base::{Chars, Place};
use rl_tokens::{Tokens, terminal};

/// A text with its tokens, and the number of its module.
#[derive(Drop)]
pub(crate) struct Source {
    pub number: u32,
    pub text: Chars,
    pub tokens: Tokens,
}

/// The place of an offset, or that of the end where the text is shorter.
#[tactic(auto, unfolding(crate::specs::Source::place_within))]
pub(crate) fn place_within(text: &Chars, number: u32, offset: u32) -> Place
    ensures { result ≡ place_within text.now number offset }
{
    let offset = offset.min(text.len());
    text.place(number, offset)
}

impl Source {
    /// The number of the terminal that the token is. Behind the last one the text ends.
    #[tactic(auto, using(crate::proofs::Tokens::read_past, std::proofs::lemmas::Option::get_or_from_slice_get))]
    pub fn kind(&self, token: u32) -> u32
        ensures { result ≡ kind_at self.now token }
    {
        if token < self.tokens.len() {
            self.tokens.kind(token)
        } else {
            terminal::END
        }
    }

    /// The characters of the token.
    #[tactic(auto, using(crate::proofs::Tokens::read_past, std::proofs::lemmas::Option::get_or_from_slice_get))]
    pub fn text(&self, token: u32) -> &str
        ensures { result.now ≡ text_at self.now token }
    {
        if token < self.tokens.len() {
            self.tokens.text(token)
        } else {
            ""
        }
    }

    // How many characters stand in front of the token.
    #[tactic(auto, using(crate::proofs::Tokens::read_past, std::proofs::lemmas::Option::get_or_from_slice_get))]
    fn offset(&self, token: u32) -> u32
        ensures { result ≡ offset_at self.now token }
    {
        if token < self.tokens.len() {
            self.tokens.offset(token)
        } else {
            self.text.len()
        }
    }

    /// The place of the token.
    #[tactic(auto, unfolding(crate::specs::Source::place_at))]
    pub fn place(&self, token: u32) -> Place
        ensures { result ≡ place_at self.now token }
    {
        place_within(&self.text, self.number, self.offset(token))
    }
}
