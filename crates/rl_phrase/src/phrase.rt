//! The phrase of a table.

ghost use Rattle.std.specs.Prelude.{◌≡◌, ℕ, [], ◌∷◌, map, length};
ghost use Rattle.rl_phrase.specs.declared.phrase.PhraseFault.TheVariants.{OutOfMemory};
ghost use Rattle.rl_phrase.specs.Tree.{Tree, Trees, Node};
ghost use Rattle.rl_phrase.specs.Steps.{tree_steps};
ghost use Rattle.rl_phrase.specs.View.{view, tree_of};
ghost use Rattle.rl_phrase.specs.LeftRecursion.{HasNoLeftRecursion};
ghost use Rattle.rl_phrase.specs.Answer.{IsNamed, Answers, AnswersTree};

use crate::build::{build, too_deep};
use crate::search::{Ending, run_machine};
use crate::steps::Step;
use crate::table::Rule;
use crate::tree::{Part, Phrase};
use rl_tokens::Tokens;
use std::alloc::{AllocError, Global};
use thiserror::Error;

/// Why there is no phrase.
#[derive(Debug, Drop, Error)]
pub enum PhraseFault {
    /// The row fails. This is the furthest token at which a terminal was tried in vain, which may be the one behind the
    /// last.
    #[error("no phrase goes on at token {token}")]
    Stopped { token: u32 },
    /// The tree is higher than 1,000. The leftmost node at depth 1,001 begins at this token.
    #[error("the phrase is nested too deep at token {token}")]
    TooDeep { token: u32 },
    /// Memory is wanting, or a number of rows, of trees or of parts has no room in its type.
    #[error("out of memory")]
    OutOfMemory,
}

impl From<AllocError> for PhraseFault {
    ghost from_gives = { λ _ e. e ≡ OutOfMemory };

    fn from(_: AllocError) -> Self {
        PhraseFault::OutOfMemory
    }
}

// The one part, which is a node.
fn only_phrase(mut parts: Vec<Part>) -> Phrase
    requires { (r f t : ℕ) × (ps : Trees) × (map tree_of parts.items ≡ Node r f t ps ∷ []) }
    ensures { map tree_of parts.items ≡ view result ∷ [] }
{
    match parts.pop() {
        Some(Part::Node(phrase)) => phrase,
        _ => unreachable!(),
    }
}

// The tree of some steps, unless it is too deep.
fn finish(alloc: Global, steps: &[Step]) -> Result<Phrase, PhraseFault>
    requires { (r f t : ℕ) × (ps : Trees) × (steps.now ≡ tree_steps (Node r f t ps)) }
    ensures { (tree : Tree) → steps.now ≡ tree_steps tree → AnswersTree tree result }
{
    if let Some(token) = too_deep(alloc, steps)? {
        return Err(PhraseFault::TooDeep { token });
    }
    let parts = build(alloc, steps)?;
    Ok(only_phrase(parts))
}

/// What the row `start` gives at the first token. A row that is no node of its own, as its only part is a node, is that
/// part. A row that the table lacks fails.
pub fn phrase(
    alloc: Global,
    tokens: &Tokens,
    rules: &[Rule],
    start: u32,
) -> Result<Phrase, PhraseFault>
    requires named { IsNamed rules.now start }
    requires no_left_recursion { HasNoLeftRecursion rules.now }
    ensures { Answers tokens.now rules.now start result }
{
    match run_machine(alloc, tokens, rules, start)? {
        Ending::Failed(far) => Err(PhraseFault::Stopped { token: far }),
        Ending::Found(steps, _) => finish(alloc, &steps),
    }
}
