//! Types.

ghost use Rattle.rl_forms.specs.Part.{Gives};
ghost use Rattle.rl_declaration_forms.specs.TypeForm.{compound_type, map_type, plain_type, type_by_word, type_of};

use rl_base::{Place, Shared};
use rl_forms::{Form, FormError, first_in, parts_in, row_in};
use rl_syntax::Ty;
use rl_tokens::terminal;
use std::alloc::Global;

// The type that is one word.
fn plain_type(place: Place, word: u32) -> Result<Ty, FormError>
    ensures { Gives (plain_type place word) result }
{
    match word {
        terminal::BOOL_TYPE => Ok(Ty::Bool { place }),
        terminal::INT_TYPE => Ok(Ty::Int { place }),
        terminal::STR_TYPE => Ok(Ty::Str { place }),
        terminal::LOC_TYPE => Ok(Ty::Loc { place }),
        terminal::VOID_TYPE => Ok(Ty::Void { place }),
        terminal::VALUE_TYPE => Ok(Ty::Value { place }),
        _ => Err(FormError::Missing),
    }
}

// The type of maps from the first of the types to the second.
fn map_type(place: Place, types: &[Shared<Ty>]) -> Result<Ty, FormError>
    ensures { Gives (map_type place types.now) result }
{
    match types {
        [key, value, ..] => Ok(Ty::Map {
            place,
            key: key.share()?,
            value: value.share()?,
        }),
        _ => Err(FormError::Missing),
    }
}

// The type that is made of others: of lists, sets or maps, of tuples, or of sets or lists of tuples.
fn compound_type(alloc: Global, place: Place, word: u32, parts: &[Form]) -> Result<Ty, FormError>
    ensures { Gives (compound_type place word parts.now) result }
{
    match word {
        terminal::LIST_TYPE => Ok(Ty::List {
            place,
            element: first_in(alloc, parts)?,
        }),
        terminal::SET_TYPE => Ok(Ty::Set {
            place,
            element: first_in(alloc, parts)?,
        }),
        terminal::MAP_TYPE => map_type(place, &parts_in(alloc, parts)?),
        terminal::TUPLE_TYPE => Ok(Ty::Tuple {
            place,
            fields: row_in(alloc, parts)?,
        }),
        terminal::REL_TYPE => Ok(Ty::Relation {
            place,
            fields: row_in(alloc, parts)?,
        }),
        terminal::LREL_TYPE => Ok(Ty::ListRelation {
            place,
            fields: row_in(alloc, parts)?,
        }),
        _ => Err(FormError::Missing),
    }
}

// The type that begins with the word.
fn type_by_word(alloc: Global, place: Place, word: u32, parts: &[Form]) -> Result<Ty, FormError>
    ensures { Gives (type_by_word place word parts.now) result }
{
    match plain_type(place, word) {
        Err(FormError::Missing) => compound_type(alloc, place, word, parts),
        found => found,
    }
}

/// A type.
#[tactic(auto, unfolding(crate::specs::TypeForm::type_of))]
pub(crate) fn type_from_parts(alloc: Global, place: Place, parts: &[Form]) -> Result<Ty, FormError>
    ensures { Gives (type_of place parts.now) result }
{
    match parts.first() {
        Some(Form::Name(name)) => Ok(Ty::Named {
            place,
            name: name.name.share()?,
        }),
        Some(Form::Word(_, word)) => type_by_word(alloc, place, *word, parts),
        _ => Err(FormError::Missing),
    }
}
