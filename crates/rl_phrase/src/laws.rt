//! What holds of each table.

ghost use Rattle.std.specs.Prelude.{◌≡◌, ℕ, List, Bool};
ghost use Rattle.rl_phrase.specs.declared.table.Rule.{Rule};
ghost use Rattle.rl_phrase.specs.Terminals.{Tokens};
ghost use Rattle.rl_phrase.specs.Phr.{Outcome, Phr, outcome_of};
ghost use Rattle.rl_phrase.specs.LeftRecursion.{HasNoLeftRecursion};
ghost use Rattle.rl_phrase.specs.Certificate.{IsCertificate};

/// A row gives one thing at a token, and without left recursion it gives something, at the first token the outcome of the row.
pub fn one_outcome()
    ensures one { (tokens : Tokens) (rules : List Rule) (row token : ℕ) (a b : Outcome) → Phr tokens rules row token a → Phr tokens rules row token b → a ≡ b }
    ensures some { (tokens : Tokens) (rules : List Rule) (row token : ℕ) → HasNoLeftRecursion rules → (outcome : Outcome) × Phr tokens rules row token outcome }
    ensures first { (tokens : Tokens) (rules : List Rule) (row : ℕ) → HasNoLeftRecursion rules → Phr tokens rules row 0 (outcome_of tokens rules row) }
{}

/// A table with a certificate has no left recursion. For a table that is written out, the certificate's test computes.
pub fn certified()
    ensures { (rules : List Rule) (empties : List Bool) (ranks : List ℕ) → IsCertificate rules empties ranks → HasNoLeftRecursion rules }
{}
