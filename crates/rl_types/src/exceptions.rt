//! The exceptions that are there without a declaration.

ghost use Rattle.std.specs.Prelude.{◌≡◌, ◌++◌, IfOk, OnOk, map};
ghost use Rattle.rl_types.specs.PlainType.{plain_type};
ghost use Rattle.rl_types.specs.View.{field_of, constructor_of};
ghost use Rattle.rl_types.specs.Exceptions.{basic_type, basic_field, exception_of};

use crate::constructor::Constructor;
use rl_base::{Name, Place, Row, Shared};
use rl_syntax::{Field, Ty};
use std::alloc::{AllocError, Global};

/// The data type of the exceptions.
pub(crate) const EXCEPTION: &str = "RuntimeException";

/// The type of a field of an exception.
#[derive(Clone, Copy)]
pub(crate) enum Basic {
    Int,
    Str,
    Loc,
    Value,
    /// Lists of any values.
    Values,
}

/// An exception and its fields, which have no names.
#[derive(Clone, Copy)]
pub(crate) struct Exception {
    pub(crate) name: &'static str,
    pub(crate) fields: &'static [Basic],
}

pub(crate) const EXCEPTIONS: [Exception; 18] = [
    Exception {
        name: "ArithmeticException",
        fields: &[Basic::Str],
    },
    Exception {
        name: "CallFailed",
        fields: &[Basic::Values],
    },
    Exception {
        name: "StackOverflow",
        fields: &[],
    },
    Exception {
        name: "TooLarge",
        fields: &[],
    },
    Exception {
        name: "VisitType",
        fields: &[],
    },
    Exception {
        name: "WrongKind",
        fields: &[],
    },
    Exception {
        name: "NoReturn",
        fields: &[],
    },
    Exception {
        name: "UninitializedVariable",
        fields: &[Basic::Str],
    },
    Exception {
        name: "IndexOutOfBounds",
        fields: &[Basic::Int],
    },
    Exception {
        name: "NoSuchKey",
        fields: &[Basic::Value],
    },
    Exception {
        name: "NoSuchField",
        fields: &[Basic::Str],
    },
    Exception {
        name: "EmptyList",
        fields: &[],
    },
    Exception {
        name: "EmptySet",
        fields: &[],
    },
    Exception {
        name: "IllegalArgument",
        fields: &[Basic::Value],
    },
    Exception {
        name: "PathNotFound",
        fields: &[Basic::Loc],
    },
    Exception {
        name: "IO",
        fields: &[Basic::Str],
    },
    Exception {
        name: "ParseError",
        fields: &[Basic::Loc],
    },
    Exception {
        name: "Ambiguity",
        fields: &[Basic::Loc, Basic::Str],
    },
];

// The place of what no module writes.
const NOWHERE: Place = Place {
    module: 0,
    offset: 0,
    line: 1,
    column: 1,
};

fn type_of(alloc: Global, basic: Basic) -> Result<Ty, AllocError>
    ensures { IfOk result (λ ty. plain_type ty ≡ basic_type basic) }
{
    match basic {
        Basic::Int => Ok(Ty::Int { place: NOWHERE }),
        Basic::Str => Ok(Ty::Str { place: NOWHERE }),
        Basic::Loc => Ok(Ty::Loc { place: NOWHERE }),
        Basic::Value => Ok(Ty::Value { place: NOWHERE }),
        Basic::Values => Ok(Ty::List {
            place: NOWHERE,
            element: Shared::new(alloc, Ty::Value { place: NOWHERE })?,
        }),
    }
}

fn field_with(alloc: Global, basic: Basic) -> Result<Field, AllocError>
    ensures { IfOk result (λ field. field_of field ≡ basic_field basic) }
{
    Ok(Field {
        ty: Shared::new(alloc, type_of(alloc, basic)?)?,
        name: None,
    })
}

fn fields_of(alloc: Global, basics: &[Basic]) -> Result<Row<Field>, AllocError>
    ensures { IfOk result (λ fields. map field_of fields ≡ map basic_field basics.now) }
{
    let mut fields = Vec::new(alloc);
    for basic in basics {
        fields.push(field_with(alloc, *basic)?)?;
    }
    Row::from_vec(alloc, fields)
}

fn constructor_with(alloc: Global, exception: &Exception) -> Result<Constructor, AllocError>
    ensures { IfOk result (λ c. constructor_of c ≡ exception_of exception.now) }
{
    Ok(Constructor {
        owner: Name::from_str(alloc, EXCEPTION)?,
        name: Name::from_str(alloc, exception.name)?,
        fields: fields_of(alloc, exception.fields)?,
    })
}

/// Adds the constructors of the exceptions.
pub(crate) fn add_exceptions(
    alloc: Global,
    exceptions: &[Exception],
    constructors: &mut Vec<Constructor>,
) -> Result<(), AllocError>
    ensures { OnOk result (map constructor_of constructors.new.items ≡ map constructor_of constructors.old.items ++ map exception_of exceptions.now) }
{
    for exception in exceptions {
        constructors.push(constructor_with(alloc, exception)?)?;
    }
    Ok(())
}
