//! Reading a text from its bytes.

ghost use Rattle.std.specs.Prelude.{◌≡◌, ◌≤◌, ◌^◌, length};
ghost use Rattle.std.specs.Str.{IsUtf8, chars as chars_of};
ghost use Rattle.rl_base.specs.Decode.{Reads, text_of};

use crate::text::Chars;
use std::alloc::{AllocError, Global};

/// Why bytes are no text.
#[derive(Clone, Copy, Debug, PartialEq, Eq, Hash)]
pub enum TextFault {
    /// They are not UTF-8: behind so many characters, those of their longest valid front.
    NotUtf8 { offset: u32 },
    /// Memory is wanting.
    OutOfMemory,
}

impl From<AllocError> for TextFault {
    ghost use Rattle.std.specs.Prelude.{◌≡◌};
    ghost use Rattle.rl_base.specs.declared.decode.TextFault.TheVariants.{OutOfMemory};

    ghost from_gives = { λ _ e. e ≡ OutOfMemory };

    fn from(_error: AllocError) -> TextFault {
        TextFault::OutOfMemory
    }
}

/// The characters that the bytes spell in UTF-8.
pub fn chars(alloc: Global, bytes: &[u8]) -> Result<Chars, TextFault>
    requires { length bytes.now ≤ 2 ^ 24 }
    ensures { Reads (text_of bytes.now) result }
{
    match std::str::from_utf8(bytes) {
        Ok(text) => Ok(Chars::new(alloc, text.chars().collect(alloc)?)?),
        Err(fault) => Err(TextFault::NotUtf8 {
            offset: count_chars(&bytes[..fault.valid_up_to()]),
        }),
    }
}

// The characters that the bytes spell, where they are UTF-8.
fn count_chars(bytes: &[u8]) -> u32
    requires utf8 { IsUtf8 bytes.now }
    requires limit { length bytes.now ≤ 2 ^ 24 }
    ensures { result ≡ length (chars_of bytes.now) }
{
    match std::str::from_utf8(bytes) {
        Ok(text) => text.chars().count() as u32,
        Err(_) => 0,
    }
}
