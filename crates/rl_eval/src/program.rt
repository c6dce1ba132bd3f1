//! Programs.

ghost use Rattle.std.specs.Prelude.{◌≡◌};

use crate::literal::Literal;
use rl_base::Row;
use std::marker::Model;

/// A program, which contracts see as the texts that its `main` prints, in order.
#[derive(Drop)]
pub struct Program {
    literals: Row<Literal>,
}

impl Model for Program {
    ghost use Rattle.std.specs.Prelude.{ℕ, List};

    ghost Value = { List (List ℕ) };

    ghost view = { λ program. program.literals };
}

impl Program {
    pub(crate) fn new(literals: Row<Literal>) -> Program
        ensures { result ≡ literals }
    {
        Program { literals }
    }

    pub(crate) fn into_literals(self) -> Row<Literal>
        ensures { result ≡ self }
    {
        self.literals
    }
}
