//! Definitions of sorts.

ghost use Rattle.std.specs.Prelude.{◌≡◌};
ghost use Rattle.rl_forms.specs.Part.{Gives};
ghost use Rattle.rl_production_forms.specs.Definition.{definition_of, role_of};

use rl_base::{Place, Shared};
use rl_forms::words::has_word;
use rl_forms::{Form, FormError, last_in, optional_at, row_in};
use rl_productions::{SyntaxDef, SyntaxRole};
use rl_syntax::{Decl, Identifier};
use rl_tokens::terminal;
use std::alloc::Global;

fn role(parts: &[Form]) -> SyntaxRole
    ensures { result ≡ role_of parts.now }
{
    if has_word(terminal::LEXICAL, parts) {
        SyntaxRole::Lexical
    } else if has_word(terminal::LAYOUT, parts) {
        SyntaxRole::Layout
    } else if has_word(terminal::KEYWORD, parts) {
        SyntaxRole::Keyword
    } else {
        SyntaxRole::Syntax
    }
}

/// A definition. The word `start` is the only name that may stand first.
#[tactic(auto, unfolding(crate::specs::Definition::definition_of))]
pub(crate) fn definition(alloc: Global, place: Place, parts: &[Form]) -> Result<Decl, FormError>
    ensures { Gives (definition_of place parts.now) result }
{
    let sort: Identifier = last_in(alloc, parts)?;
    let start: Option<Identifier> = optional_at(alloc, parts, 0)?;
    let definition = SyntaxDef {
        place,
        start: start.is_some(),
        role: role(parts),
        sort: sort.name,
        levels: row_in(alloc, parts)?,
    };
    Ok(Decl::Syntax(Shared::new(alloc, definition)?))
}
