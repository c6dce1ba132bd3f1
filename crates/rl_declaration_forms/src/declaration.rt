//! Imports, and the names of modules.

ghost use Rattle.std.specs.Prelude.{◌≡◌, ◌++◌, IfOk, OnOk};
ghost use Rattle.std.specs.String.{string_bytes};
ghost use Rattle.rl_forms.specs.Part.{Gives};
ghost use Rattle.rl_declaration_forms.specs.Declaration.{import_from, import_of, qualified_name_of, qualified_text};

use rl_base::{Name, Place};
use rl_forms::words::has_word;
use rl_forms::{Form, FormError};
use rl_syntax::Decl;
use rl_tokens::terminal;
use std::alloc::{AllocError, Global};

// Adds the text of the names, with `::` between them.
fn add_qualified_text(parts: &[Form], text: &mut String) -> Result<(), AllocError>
    ensures { OnOk result (string_bytes text.new ≡ string_bytes text.old ++ qualified_text parts.now) }
{
    for part in parts {
        match part {
            Form::Name(name) => text.push_str(name.name.as_str())?,
            _ => text.push_str("::")?,
        }
    }
    Ok(())
}

/// The name of a module.
#[tactic(auto, unfolding(crate::specs::Declaration::qualified_name_of))]
pub(crate) fn qualified_name(
    alloc: Global,
    place: Place,
    parts: &[Form],
) -> Result<Form, AllocError>
    ensures { IfOk result (λ form. form ≡ qualified_name_of place parts.now) }
{
    let mut text = String::new(alloc);
    add_qualified_text(parts, &mut text)?;
    let name = Name::from_str(alloc, text.as_str())?;
    Ok(Form::QualifiedName(place, name))
}

fn import_from(place: Place, name: &Name, parts: &[Form]) -> Result<Decl, AllocError>
    ensures { IfOk result (λ it. it ≡ import_from place name.now parts.now) }
{
    let module = name.share()?;
    if has_word(terminal::EXTEND, parts) {
        Ok(Decl::Extend { place, module })
    } else {
        Ok(Decl::Import { place, module })
    }
}

/// `import M;` or `extend M;`
#[tactic(auto, unfolding(crate::specs::Declaration::import_of))]
pub(crate) fn import(place: Place, parts: &[Form]) -> Result<Decl, FormError>
    ensures { Gives (import_of place parts.now) result }
{
    match parts.get(1) {
        Some(Form::QualifiedName(_, name)) => Ok(import_from(place, name, parts)?),
        _ => Err(FormError::Missing),
    }
}
