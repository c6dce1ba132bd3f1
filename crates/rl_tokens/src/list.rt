//! The list of tokens.

ghost use Rattle.std.specs.Prelude.{◌≡◌, ◌<◌, ◌≤◌, ◌^◌, ◌++◌, [], ◌∷◌, List, ℕ, length, encode_utf8_all, slice_get, IfOk, OnOk, Some};
ghost use Rattle.std.specs.String.{string_bytes};

use std::alloc::{AllocError, Global};
use std::marker::Model;

// A token, whose text is the bytes `from..to` of the text that all tokens share.
#[derive(Clone, Copy, Debug)]
struct Entry {
    kind: u32,
    offset: u32,
    length: u32,
    from: u32,
    to: u32,
}

/// The tokens of a text, each with its kind, its text and its place.
///
/// The last one is the end of the text. Contracts see it as the list of the tokens.
#[derive(Drop)]
pub struct Tokens {
    // The texts of the tokens, one behind the other.
    texts: String,
    entries: Vec<Entry>,
}

impl Model for Tokens {
    ghost use Rattle.std.specs.Prelude.{List, All, ◌≤◌, ◌^◌, length};
    ghost use Rattle.std.specs.String.{string_bytes};
    ghost use Rattle.rl_tokens.specs.Token.{Token};

    ghost Value = { List Token };

    ghost use Rattle.rl_tokens.specs.List.{tokens_of, IsPiece};

    ghost view = { λ t. tokens_of (string_bytes t.texts) t.entries.items };

    ghost invariant = { λ t.
        (length t.entries.items ≤ 2 ^ 25)
        × All (IsPiece (string_bytes t.texts)) t.entries.items };
}

// Adds the characters to the text; without memory, some of them.
fn append(texts: &mut String, chars: &[char]) -> Result<(), AllocError>
    ensures all { OnOk result
        (string_bytes texts.new ≡ string_bytes texts.old ++ encode_utf8_all chars.now) }
    ensures some { (added : List ℕ) × (string_bytes texts.new ≡ string_bytes texts.old ++ added) }
{
    for c in chars {
        texts.push(*c)?;
    }
    Ok(())
}

// How many bytes the text has. One of 4 GiB counts as want of memory.
fn size(text: &str) -> Result<u32, AllocError>
    ensures { IfOk result (λ bytes. bytes ≡ length text.now) }
{
    u32::try_from(text.len()).map_err(|_| AllocError)
}

impl Tokens {
    ghost use Rattle.rl_tokens.specs.Token.{kinds_of, texts_of, offsets_of, lengths_of};

    /// No tokens.
    pub fn new(alloc: Global) -> Tokens
        ensures { result ≡ [] }
    {
        Tokens {
            texts: String::new(alloc),
            entries: Vec::new(alloc),
        }
    }

    /// Adds a token with the characters of `text`.
    ///
    /// Memory is wanting, too, where the texts of all tokens together have 2^32 bytes or more.
    pub fn push(&mut self, kind: u32, text: &[char], offset: u32) -> Result<(), AllocError>
        requires few { length self.old < 2 ^ 25 }
        requires short { length text.now < 2 ^ 32 }
        ensures { OnOk result (self.new ≡ self.old ++ record {
          kind = kind;
          text = encode_utf8_all text.now;
          offset = offset;
          length = length text.now;
        } ∷ []) }
    {
        let from = size(self.texts.as_str())?;
        append(&mut self.texts, text)?;
        let to = size(self.texts.as_str())?;
        self.entries.push(Entry {
            kind,
            offset,
            length: text.len() as u32,
            from,
            to,
        })?;
        Ok(())
    }

    /// How many tokens there are.
    pub fn len(&self) -> u32
        ensures { result ≡ length self.now }
    {
        self.entries.len() as u32
    }

    /// The number of the terminal that the token is.
    pub fn kind(&self, i: u32) -> u32
        requires { i < length self.now }
        ensures { slice_get (kinds_of self.now) i ≡ Some result }
    {
        let entry = self.entries[i as usize];
        entry.kind
    }

    /// The characters of the token.
    pub fn text(&self, i: u32) -> &str
        requires { i < length self.now }
        ensures { slice_get (texts_of self.now) i ≡ Some result.now }
    {
        let entry = self.entries[i as usize];
        &self.texts[entry.from as usize..entry.to as usize]
    }

    /// How many characters of the text stand in front of the token.
    pub fn offset(&self, i: u32) -> u32
        requires { i < length self.now }
        ensures { slice_get (offsets_of self.now) i ≡ Some result }
    {
        let entry = self.entries[i as usize];
        entry.offset
    }

    /// How many characters the token has.
    pub fn length(&self, i: u32) -> u32
        requires { i < length self.now }
        ensures { slice_get (lengths_of self.now) i ≡ Some result }
    {
        let entry = self.entries[i as usize];
        entry.length
    }
}
