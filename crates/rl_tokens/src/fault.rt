//! What may be at fault in a text, and the leftmost of the faults found.

ghost use Rattle.std.specs.Prelude.{◌≡◌, None};
ghost use Rattle.rl_tokens.specs.Fault.{sooner};

use thiserror::Error;

/// Why a text has no tokens: the leftmost fault of the text, by the characters in front of it.
#[derive(Debug, Drop, Error)]
pub enum TokenFault {
    /// No token begins with this character.
    #[error("no token begins with the character at {offset}")]
    BadCharacter { offset: u32 },
    /// What begins here does not end: a piece of a string, the string of an interpolation, a
    /// character class or a fragment.
    #[error("what begins at {offset} does not end")]
    OpenString { offset: u32 },
    /// A comment that begins here does not end.
    #[error("the comment at {offset} does not end")]
    OpenComment { offset: u32 },
    /// The integer that begins here is above 2^127 - 1.
    #[error("the integer at {offset} is too large")]
    WideNumber { offset: u32 },
    /// The backslash, `<` or `-` here has no meaning where it stands.
    #[error("the character at {offset} has no meaning there")]
    BadEscape { offset: u32 },
    /// Memory is wanting.
    #[error("out of memory")]
    OutOfMemory,
}

#[derive(Clone, Copy, Debug, PartialEq, Eq)]
pub(crate) enum Flaw {
    BadCharacter,
    OpenString,
    OpenComment,
    WideNumber,
    BadEscape,
}

#[derive(Clone, Copy, Debug, PartialEq, Eq)]
pub(crate) struct Fault {
    pub flaw: Flaw,
    pub offset: u32,
}

// The leftmost of the faults noted.
#[derive(Clone, Copy, Debug)]
pub(crate) struct Faults {
    pub first: Option<Fault>,
}

impl Faults {
    pub fn new() -> Faults
        ensures { result.first ≡ None }
    {
        Faults { first: None }
    }

    pub fn note(&mut self, flaw: Flaw, offset: u32)
        ensures { self.new.first ≡ sooner self.old.first (record { flaw = flaw; offset = offset }) }
    {
        let fault = Fault { flaw, offset };
        self.first = match self.first {
            Some(first) if first.offset <= offset => Some(first),
            _ => Some(fault),
        };
    }
}

impl Fault {
    ghost use Rattle.std.specs.Prelude.{◌≡◌};
    ghost use Rattle.rl_tokens.specs.Fault.{told};

    pub fn told(self) -> TokenFault
        ensures { result ≡ told self }
    {
        let offset = self.offset;
        match self.flaw {
            Flaw::BadCharacter => TokenFault::BadCharacter { offset },
            Flaw::OpenString => TokenFault::OpenString { offset },
            Flaw::OpenComment => TokenFault::OpenComment { offset },
            Flaw::WideNumber => TokenFault::WideNumber { offset },
            Flaw::BadEscape => TokenFault::BadEscape { offset },
        }
    }
}
