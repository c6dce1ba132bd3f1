//! Parts of a phrase by what they are.

ghost use Rattle.std.specs.Prelude.{◌≡◌, IfOk};
ghost use Rattle.std.specs.List.{filter_map};
ghost use Rattle.rl_forms.specs.Part.{Gives, first_in, last_in, part_at};

use crate::form::Form;
use rl_base::Row;
use std::alloc::{AllocError, Global};

/// Why nothing was made of the parts of a phrase.
#[derive(Clone, Copy, Debug, PartialEq, Eq)]
pub enum FormError {
    /// A part that is needed is not there, or is of another kind.
    Missing,
    /// Memory is wanting.
    OutOfMemory,
}

impl From<AllocError> for FormError {
    ghost use Rattle.std.specs.Prelude.{◌≡◌};
    ghost use Rattle.rl_forms.specs.declared.part.FormError.TheVariants.{OutOfMemory};

    ghost from_gives = { λ _ error. error ≡ OutOfMemory };

    fn from(_: AllocError) -> FormError {
        FormError::OutOfMemory
    }
}

/// What a part of a phrase may be.
pub trait Part: Drop {
    ghost use Rattle.std.specs.Prelude.{Option};
    ghost use Rattle.rl_forms.specs.declared.form.Form.{Form};

    /// What a form is, if it is of this kind.
    ghost of_form: { Form → Option Self };

    /// The part that the form is.
    fn from_form(alloc: Global, form: &Form) -> Result<Self, FormError>
        ensures { Gives (of_form form.now) result };
}

/// The part at a place among the parts.
#[tactic(auto, unfolding(crate::specs::Part::part_at))]
pub fn part_at<P: Part>(alloc: Global, parts: &[Form], at: usize) -> Result<P, FormError>
    ensures { Gives (part_at P.of_form parts.now at) result }
{
    match parts.get(at) {
        Some(part) => P::from_form(alloc, part),
        None => Err(FormError::Missing),
    }
}

/// The part at a place among the parts, if it is there.
pub fn optional_at<P: Part>(
    alloc: Global,
    parts: &[Form],
    at: usize,
) -> Result<Option<P>, AllocError>
    ensures { IfOk result (λ it. it ≡ part_at P.of_form parts.now at) }
{
    match part_at(alloc, parts, at) {
        Ok(part) => Ok(Some(part)),
        Err(FormError::Missing) => Ok(None),
        Err(FormError::OutOfMemory) => Err(AllocError),
    }
}

/// The first part of the kind.
pub fn first_in<P: Part>(alloc: Global, parts: &[Form]) -> Result<P, FormError>
    ensures { Gives (first_in P.of_form parts.now) result }
{
    for part in parts {
        match P::from_form(alloc, part) {
            Ok(found) => return Ok(found),
            Err(FormError::Missing) => {}
            Err(FormError::OutOfMemory) => return Err(FormError::OutOfMemory),
        }
    }
    Err(FormError::Missing)
}

/// The last part of the kind.
pub fn last_in<P: Part>(alloc: Global, parts: &[Form]) -> Result<P, FormError>
    ensures { Gives (last_in P.of_form parts.now) result }
{
    let mut last = None;
    for part in parts {
        match P::from_form(alloc, part) {
            Ok(found) => last = Some(found),
            Err(FormError::Missing) => {}
            Err(FormError::OutOfMemory) => return Err(FormError::OutOfMemory),
        }
    }
    last.ok_or(FormError::Missing)
}

/// All parts of the kind, in their order.
pub fn parts_in<P: Part>(alloc: Global, parts: &[Form]) -> Result<Vec<P>, AllocError>
    ensures { IfOk result (λ found. found.items ≡ filter_map P.of_form parts.now) }
{
    let mut found = Vec::new(alloc);
    for part in parts {
        match P::from_form(alloc, part) {
            Ok(part) => found.push(part)?,
            Err(FormError::Missing) => {}
            Err(FormError::OutOfMemory) => return Err(AllocError),
        }
    }
    Ok(found)
}

/// The same as a row.
pub fn row_in<P: Part>(alloc: Global, parts: &[Form]) -> Result<Row<P>, AllocError>
    ensures { IfOk result (λ row. row ≡ filter_map P.of_form parts.now) }
{
    Row::from_vec(alloc, parts_in(alloc, parts)?)
}
