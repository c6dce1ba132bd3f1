//! Globals and functions.

ghost use Rattle.std.specs.Prelude.{◌≡◌};
ghost use Rattle.rl_forms.specs.Part.{Gives};
ghost use Rattle.rl_declaration_forms.specs.Function.{body_of, function_of, global_of, modifier_of, valued_body};

use rl_base::{Place, Shared};
use rl_forms::words::{before_word, behind_word, has_word};
use rl_forms::{Form, FormError, conditions_or_none, first_in, part_at, row_in};
use rl_syntax::{Body, Decl, Function, Modifier, Ty};
use rl_tokens::terminal;
use std::alloc::Global;

/// `T x = e;`
#[tactic(auto, unfolding(crate::specs::Function::global_of))]
pub(crate) fn global(alloc: Global, place: Place, parts: &[Form]) -> Result<Decl, FormError>
    ensures { Gives (global_of place parts.now) result }
{
    Ok(Decl::Global {
        place,
        private: has_word(terminal::PRIVATE, parts),
        ty: first_in(alloc, parts)?,
        name: first_in(alloc, parts)?,
        value: part_at(alloc, behind_word(terminal::EQUALS, parts), 0)?,
    })
}

fn modifier(parts: &[Form]) -> Option<Modifier>
    ensures { result ≡ modifier_of parts.now }
{
    if has_word(terminal::DEFAULT, parts) {
        Some(Modifier::Default)
    } else if has_word(terminal::TEST, parts) {
        Some(Modifier::Test)
    } else {
        None
    }
}

// `= e when conditions;`
#[tactic(auto, unfolding(crate::specs::Function::valued_body))]
fn valued_body(alloc: Global, parts: &[Form]) -> Result<Body, FormError>
    ensures { Gives (valued_body parts.now) result }
{
    Ok(Body::Value {
        value: part_at(alloc, behind_word(terminal::EQUALS, parts), 0)?,
        conditions: conditions_or_none(alloc, behind_word(terminal::WHEN, parts), 0)?,
    })
}

// What stands behind the parameters.
#[tactic(auto, unfolding(crate::specs::Function::body_of))]
fn body(alloc: Global, parts: &[Form]) -> Result<Body, FormError>
    ensures { Gives (body_of parts.now) result }
{
    if has_word(terminal::EQUALS, parts) {
        valued_body(alloc, parts)
    } else {
        Ok(Body::Statements(row_in(alloc, parts)?))
    }
}

/// An alternative of a function. Its parameters stand before the first closing parenthesis: behind it a fragment is an
/// expression.
#[tactic(auto, unfolding(crate::specs::Function::function_of))]
pub(crate) fn function(alloc: Global, place: Place, parts: &[Form]) -> Result<Decl, FormError>
    ensures { Gives (function_of place parts.now) result }
{
    let ty: Shared<Ty> = first_in(alloc, parts)?;
    let function = Function {
        place,
        private: has_word(terminal::PRIVATE, parts),
        modifier: modifier(parts),
        ty: ty.get().share()?,
        name: first_in(alloc, parts)?,
        parameters: row_in(alloc, before_word(terminal::CLOSE_PARENTHESIS, parts))?,
        body: body(alloc, parts)?,
    };
    Ok(Decl::Function(Shared::new(alloc, function)?))
}
