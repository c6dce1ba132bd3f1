//! `try`, `catch` and `finally`.

ghost use Rattle.std.specs.Prelude.{◌≡◌, IfOk};
ghost use Rattle.rl_forms.specs.Part.{Gives};
ghost use Rattle.rl_statement_forms.specs.Trying.{finally_of, last_finally, try_of};

use rl_base::{Place, Shared};
use rl_forms::{Form, FormError, part_at, row_in};
use rl_syntax::Stat;
use std::alloc::{AllocError, Global};

/// `finally statement`
#[tactic(auto, unfolding(crate::specs::Trying::finally_of))]
pub(crate) fn finally(alloc: Global, parts: &[Form]) -> Result<Form, FormError>
    ensures { Gives (finally_of parts.now) result }
{
    Ok(Form::Finally(part_at(alloc, parts, 1)?))
}

// The statement behind `finally`, which stands last.
#[tactic(auto, unfolding(crate::specs::Trying::last_finally))]
fn last_finally(parts: &[Form]) -> Result<Option<Shared<Stat>>, AllocError>
    ensures { IfOk result (λ it. it ≡ last_finally parts.now) }
{
    match parts.last() {
        Some(Form::Finally(statement)) => Ok(Some(statement.share()?)),
        _ => Ok(None),
    }
}

/// `try statement`, its handlers, and `finally statement`
#[tactic(auto, unfolding(crate::specs::Trying::try_of))]
pub(crate) fn attempt(alloc: Global, place: Place, parts: &[Form]) -> Result<Stat, FormError>
    ensures { Gives (try_of place parts.now) result }
{
    Ok(Stat::Try {
        place,
        body: part_at(alloc, parts, 1)?,
        handlers: row_in(alloc, parts)?,
        finally: last_finally(parts)?,
    })
}
