//! Names in a module.

ghost use Rattle.std.specs.Prelude.{◌≡◌, IfOk};

use rl_base::{Name, Place};
use std::alloc::AllocError;

/// A name where it is used or declared.
#[derive(Drop)]
pub struct Identifier {
    /// The place of the name itself.
    pub place: Place,
    pub name: Name,
    /// What the name leads to. Reading leaves 0, and checking sets the number of the variable, function, constructor or field.
    pub number: usize,
}

impl Identifier {
    /// One more share of the name.
    pub fn share(&self) -> Result<Identifier, AllocError>
        ensures { IfOk result (λ it. it ≡ self.now) }
    {
        Ok(Identifier {
            place: self.place,
            name: self.name.share()?,
            number: self.number,
        })
    }
}

/// A variable of a pattern.
#[derive(Drop)]
pub struct PatternVariable {
    /// The place of the name itself.
    pub place: Place,
    pub name: Name,
    /// The number of the variable. Reading leaves 0, and checking sets it.
    pub number: usize,
    /// Whether the pattern asks that the variable's value is equal, and does not set it. Reading leaves false, and checking
    /// sets it where the name is visible or bound further left in the pattern. It stays false for a typed variable.
    pub is_test: bool,
}

impl PatternVariable {
    /// One more share of the variable.
    pub fn share(&self) -> Result<PatternVariable, AllocError>
        ensures { IfOk result (λ it. it ≡ self.now) }
    {
        Ok(PatternVariable {
            place: self.place,
            name: self.name.share()?,
            number: self.number,
            is_test: self.is_test,
        })
    }
}
