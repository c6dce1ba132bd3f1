//! The texts of literals.

ghost use Rattle.std.specs.Prelude.{◌≡◌, ◌<◌, ◌^◌, [], ◌∷◌, ◌++◌, length, IfOk};
ghost use Rattle.rl_value.specs.Plain.{text};
ghost use Rattle.rl_eval.specs.Rules.{line_of};

use rl_base::Name;
use rl_value::{BuildEnd, Value};
use std::alloc::{AllocError, Global};
use std::marker::Model;

/// The text of a string literal, fewer than 2^24 bytes, which its holders share.
#[derive(Debug, Drop)]
pub struct Literal {
    text: Name,
}

impl Model for Literal {
    ghost use Rattle.std.specs.Prelude.{ℕ, ◌^◌, ◌<◌, List, length};

    ghost Value = { List ℕ };

    ghost view = { λ literal. literal.text };

    ghost invariant = { λ literal. length literal.text < 2 ^ 24 };
}

impl Literal {
    pub fn new(text: &Name) -> Result<Literal, AllocError>
        requires { length text.now < 2 ^ 24 }
        ensures { IfOk result (λ literal. literal ≡ text.now) }
    {
        Ok(Literal {
            text: text.share()?,
        })
    }

    /// One more share.
    pub fn share(&self) -> Result<Literal, AllocError>
        ensures { IfOk result (λ literal. literal ≡ self.now) }
    {
        Ok(Literal {
            text: self.text.share()?,
        })
    }

    /// Its value.
    pub fn value(&self, alloc: Global) -> Result<Value, AllocError>
        ensures { IfOk result (λ value. value ≡ text self.now) }
    {
        match rl_value::text(alloc, self.text.as_str()) {
            Ok(value) => Ok(value),
            Err(BuildEnd::OutOfMemory) => Err(AllocError),
            Err(BuildEnd::TooLarge) => unreachable!(),
        }
    }

    /// Its text, and an LF.
    pub fn line(&self, alloc: Global) -> Result<Vec<u8>, AllocError>
        ensures { IfOk result (λ line. line.items ≡ line_of self.now) }
    {
        let mut line = Vec::new(alloc);
        line.extend_from_slice(self.text.as_str().as_bytes())?;
        line.push(b'\n')?;
        Ok(line)
    }
}
