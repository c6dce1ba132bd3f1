//! Pairs that adjoining parts of a phrase make.

ghost use Rattle.std.specs.Prelude.{◌≡◌, IfOk};
ghost use Rattle.rl_expression_forms.specs.Pair.{pairs_in};

use rl_base::Row;
use rl_forms::{Form, FormError};
use std::alloc::{AllocError, Global};

/// What adjoining parts make, as an operator and the value behind it.
pub(crate) trait Pair: Drop {
    ghost use Rattle.std.specs.Prelude.{List, Option};
    ghost use Rattle.rl_forms.specs.Part.{Gives};
    ghost use Rattle.rl_forms.specs.declared.form.Form.{Form};

    /// The pair that the parts begin with, if they do.
    ghost of_parts: { List Form → Option Self };

    /// The pair that the parts begin with.
    fn from_parts(alloc: Global, parts: &[Form]) -> Result<Self, FormError>
        ensures { Gives (of_parts parts.now) result };
}

/// The pairs among the parts, in their order.
pub(crate) fn pairs_in<P: Pair>(alloc: Global, parts: &[Form]) -> Result<Row<P>, AllocError>
    ensures { IfOk result (λ row. row ≡ pairs_in P.of_parts parts.now) }
{
    let mut found = Vec::new(alloc);
    let mut rest = parts;
    'parts: while let Some((_, behind)) = rest.split_first() {
        match P::from_parts(alloc, rest) {
            Ok(pair) => found.push(pair)?,
            Err(FormError::Missing) => {}
            Err(FormError::OutOfMemory) => return Err(AllocError),
        }
        rest = behind;
    }
    Row::from_vec(alloc, found)
}
