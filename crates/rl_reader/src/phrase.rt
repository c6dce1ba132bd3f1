//! What the phrase of a text says.

ghost use Rattle.std.specs.Prelude.{◌≡◌, IfOk};
ghost use Rattle.rl_phrase.specs.View.{tree_of, trees_of, view};
ghost use Rattle.rl_reader.specs.Phrase.{form_of, forms_of};

use crate::node::read_node;
use crate::source::Source;
use crate::token::read_token;
use rl_forms::Form;
use rl_phrase::tree::{Part, Phrase};
use std::alloc::{AllocError, Global};

/// What the parts say.
#[cycle(read)]
pub(crate) fn read_parts(
    alloc: Global,
    source: &Source,
    parts: &[Part],
) -> Result<Vec<Form>, AllocError>
    ensures { IfOk result (λ forms. forms.items ≡ forms_of source.now (trees_of parts.now)) }
{
    let mut forms = Vec::new(alloc);
    for part in parts {
        forms.push(read_part(alloc, source, part)?)?;
    }
    Ok(forms)
}

// What the phrase says.
#[cycle(read)]
fn read_phrase(alloc: Global, source: &Source, phrase: &Phrase) -> Result<Form, AllocError>
    ensures { IfOk result (λ form. form ≡ form_of source.now (view phrase.now)) }
{
    let parts = read_parts(alloc, source, &phrase.parts)?;
    read_node(alloc, phrase.rule, source.place(phrase.from), &parts)
}

// What the part says.
#[cycle(read)]
fn read_part(alloc: Global, source: &Source, part: &Part) -> Result<Form, AllocError>
    ensures { IfOk result (λ form. form ≡ form_of source.now (tree_of part.now)) }
{
    match part {
        Part::Token(token) => read_token(alloc, source, *token),
        Part::Node(phrase) => read_phrase(alloc, source, phrase),
    }
}
