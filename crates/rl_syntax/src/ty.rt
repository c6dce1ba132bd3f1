//! Types as they are written.

ghost use Rattle.std.specs.Prelude.{◌≡◌, IfOk};
ghost use Rattle.rl_syntax.specs.Ty.{place_of_ty};

use crate::identifier::Identifier;
use rl_base::{Name, Place, Row, Shared};
use std::alloc::AllocError;

/// A type. Its place is that of its first token; a type that was not written has the place of what it is the type of.
#[cycle(ty)]
#[derive(Drop)]
pub enum Ty {
    /// `list[T]`
    List {
        place: Place,
        element: Shared<Ty>,
    },
    /// `set[T]`
    Set {
        place: Place,
        element: Shared<Ty>,
    },
    /// `map[K, V]`
    Map {
        place: Place,
        key: Shared<Ty>,
        value: Shared<Ty>,
    },
    /// `tuple[T, ..]`
    Tuple {
        place: Place,
        fields: Row<Field>,
    },
    /// `rel[T, ..]`: a set of tuples.
    Relation {
        place: Place,
        fields: Row<Field>,
    },
    /// `lrel[T, ..]`: a list of tuples.
    ListRelation {
        place: Place,
        fields: Row<Field>,
    },
    /// `bool`
    Bool {
        place: Place,
    },
    /// `int`
    Int {
        place: Place,
    },
    /// `str`
    Str {
        place: Place,
    },
    /// `loc`
    Loc {
        place: Place,
    },
    /// `void`: no value has it, and it is below all types.
    Void {
        place: Place,
    },
    /// `value`: all values have it.
    Value {
        place: Place,
    },
    /// A data type or a sort.
    Named {
        place: Place,
        name: Name,
    },
}

impl Ty {
    /// Its place.
    pub fn place(&self) -> Place
        ensures { result ≡ place_of_ty self.now }
    {
        match self {
            Ty::List { place, .. }
            | Ty::Set { place, .. }
            | Ty::Map { place, .. }
            | Ty::Tuple { place, .. }
            | Ty::Relation { place, .. }
            | Ty::ListRelation { place, .. }
            | Ty::Bool { place }
            | Ty::Int { place }
            | Ty::Str { place }
            | Ty::Loc { place }
            | Ty::Void { place }
            | Ty::Value { place }
            | Ty::Named { place, .. } => *place,
        }
    }

    /// One more share of the type.
    pub fn share(&self) -> Result<Ty, AllocError>
        ensures { IfOk result (λ it. it ≡ self.now) }
    {
        match self {
            Ty::List { place, element } => Ok(Ty::List {
                place: *place,
                element: element.share()?,
            }),
            Ty::Set { place, element } => Ok(Ty::Set {
                place: *place,
                element: element.share()?,
            }),
            Ty::Map { place, key, value } => Ok(Ty::Map {
                place: *place,
                key: key.share()?,
                value: value.share()?,
            }),
            Ty::Tuple { place, fields } => Ok(Ty::Tuple {
                place: *place,
                fields: fields.share()?,
            }),
            Ty::Relation { place, fields } => Ok(Ty::Relation {
                place: *place,
                fields: fields.share()?,
            }),
            Ty::ListRelation { place, fields } => Ok(Ty::ListRelation {
                place: *place,
                fields: fields.share()?,
            }),
            Ty::Bool { place } => Ok(Ty::Bool { place: *place }),
            Ty::Int { place } => Ok(Ty::Int { place: *place }),
            Ty::Str { place } => Ok(Ty::Str { place: *place }),
            Ty::Loc { place } => Ok(Ty::Loc { place: *place }),
            Ty::Void { place } => Ok(Ty::Void { place: *place }),
            Ty::Value { place } => Ok(Ty::Value { place: *place }),
            Ty::Named { place, name } => Ok(Ty::Named {
                place: *place,
                name: name.share()?,
            }),
        }
    }
}

/// `T name` or `T`: a field of a constructor, or a part of a tuple type, where a name has no meaning.
#[cycle(ty)]
#[derive(Drop)]
pub struct Field {
    pub ty: Shared<Ty>,
    pub name: Option<Identifier>,
}

fn share_name(name: &Option<Identifier>) -> Result<Option<Identifier>, AllocError>
    ensures { IfOk result (λ it. it ≡ name.now) }
{
    match name {
        None => Ok(None),
        Some(name) => Ok(Some(name.share()?)),
    }
}

impl Field {
    /// One more share of the field.
    pub fn share(&self) -> Result<Field, AllocError>
        ensures { IfOk result (λ it. it ≡ self.now) }
    {
        let name = share_name(&self.name)?;
        Ok(Field {
            ty: self.ty.share()?,
            name,
        })
    }
}
