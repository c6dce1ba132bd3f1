//! The least type above two.

ghost use Rattle.std.specs.Prelude.{◌≡◌, IfOk, map, length};
ghost use Rattle.rl_types.specs.Declarations.{Declarations};
ghost use Rattle.rl_types.specs.Joining.{collection_of};
ghost use Rattle.rl_types.specs.PlainType.{bool as bool_type, int as int_type, str as str_type, loc as loc_type, mapping, tuple, named, plain_type, field_type, types_of};
ghost use Rattle.rl_types.specs.Types.{join, joins, join_names, is_tree};

use crate::decls::Decls;
use crate::subtyping::TREE;
use rl_base::{Name, Place, Row, Shared};
use rl_syntax::{Field, Ty};
use std::alloc::{AllocError, Global};

/// The least type above both. Its place is that of the first, or of the second where the first is `void`.
pub fn join(alloc: Global, a: &Ty, b: &Ty, decls: &Decls) -> Result<Ty, AllocError>
    ensures { IfOk result (λ ty. plain_type ty ≡ join decls.now (plain_type a.now) (plain_type b.now)) }
{
    least_above(b, a, decls, alloc)
}

// The least type above both.
#[cycle(join)]
#[tactic(auto, unfolding(crate::specs::Types::join))]
fn least_above(b: &Ty, a: &Ty, decls: &Decls, alloc: Global) -> Result<Ty, AllocError>
    ensures { IfOk result (λ ty. plain_type ty ≡ join decls.now (plain_type a.now) (plain_type b.now)) }
{
    match a {
        Ty::Void { .. } => b.share(),
        Ty::Value { place } => Ok(Ty::Value { place: *place }),
        Ty::Bool { place } => Ok(above_bool(b, *place)),
        Ty::Int { place } => Ok(above_int(b, *place)),
        Ty::Str { place } => Ok(above_str(b, *place)),
        Ty::Loc { place } => Ok(above_loc(b, *place)),
        Ty::List { place, element } => above_collection(
            b,
            Collection::List,
            *place,
            element,
            decls,
            alloc,
        ),
        Ty::ListRelation { place, fields } => above_rows(
            b,
            Collection::List,
            *place,
            fields.as_slice(),
            decls,
            alloc,
        ),
        Ty::Set { place, element } => above_collection(
            b,
            Collection::Set,
            *place,
            element,
            decls,
            alloc,
        ),
        Ty::Relation { place, fields } => above_rows(
            b,
            Collection::Set,
            *place,
            fields.as_slice(),
            decls,
            alloc,
        ),
        Ty::Map { place, key, value } => above_map(b, *place, key, value, decls, alloc),
        Ty::Tuple { place, fields } => above_tuple(b, *place, fields.as_slice(), decls, alloc),
        Ty::Named { place, name } => above_name(b, *place, name, decls, alloc),
    }
}

#[tactic(auto, unfolding(crate::specs::Types::join))]
fn above_bool(b: &Ty, place: Place) -> Ty
    ensures { (d : Declarations) → plain_type result ≡ join d bool_type (plain_type b.now) }
{
    match b {
        Ty::Void { .. } | Ty::Bool { .. } => Ty::Bool { place },
        _ => Ty::Value { place },
    }
}

#[tactic(auto, unfolding(crate::specs::Types::join))]
fn above_int(b: &Ty, place: Place) -> Ty
    ensures { (d : Declarations) → plain_type result ≡ join d int_type (plain_type b.now) }
{
    match b {
        Ty::Void { .. } | Ty::Int { .. } => Ty::Int { place },
        _ => Ty::Value { place },
    }
}

#[tactic(auto, unfolding(crate::specs::Types::join))]
fn above_str(b: &Ty, place: Place) -> Ty
    ensures { (d : Declarations) → plain_type result ≡ join d str_type (plain_type b.now) }
{
    match b {
        Ty::Void { .. } | Ty::Str { .. } => Ty::Str { place },
        _ => Ty::Value { place },
    }
}

#[tactic(auto, unfolding(crate::specs::Types::join))]
fn above_loc(b: &Ty, place: Place) -> Ty
    ensures { (d : Declarations) → plain_type result ≡ join d loc_type (plain_type b.now) }
{
    match b {
        Ty::Void { .. } | Ty::Loc { .. } => Ty::Loc { place },
        _ => Ty::Value { place },
    }
}

// A kind of collection of elements.
#[derive(Clone, Copy)]
enum Collection {
    List,
    Set,
}

fn collection_type(kind: Collection, place: Place, element: Shared<Ty>) -> Ty
    ensures { plain_type result ≡ collection_of kind (plain_type element) }
{
    match kind {
        Collection::List => Ty::List { place, element },
        Collection::Set => Ty::Set { place, element },
    }
}

fn rows_type(kind: Collection, place: Place, fields: Row<Field>) -> Ty
    ensures { plain_type result ≡ collection_of kind (tuple (types_of (map field_type fields))) }
{
    match kind {
        Collection::List => Ty::ListRelation { place, fields },
        Collection::Set => Ty::Relation { place, fields },
    }
}

// The least type above the collections of the element and the type.
#[cycle(join)]
#[tactic(auto, unfolding(crate::specs::Types::join))]
fn above_collection(
    b: &Ty,
    kind: Collection,
    place: Place,
    element: &Shared<Ty>,
    decls: &Decls,
    alloc: Global,
) -> Result<Ty, AllocError>
    ensures { IfOk result (λ ty. plain_type ty ≡ join decls.now (collection_of kind (plain_type element.now)) (plain_type b.now)) }
{
    let joined = match (kind, b) {
        (_, Ty::Void { .. }) => return Ok(collection_type(kind, place, element.share()?)),
        (Collection::List, Ty::List { element: other, .. })
        | (Collection::Set, Ty::Set { element: other, .. }) => least_above(
            other.get(),
            element.get(),
            decls,
            alloc,
        )?,
        (Collection::List, Ty::ListRelation { fields, .. })
        | (Collection::Set, Ty::Relation { fields, .. }) => {
            above_tuples_and(fields.as_slice(), element.get(), decls, alloc)?
        }
        _ => return Ok(Ty::Value { place }),
    };
    Ok(collection_type(kind, place, Shared::new(alloc, joined)?))
}

// The least type above the collections of tuples of the fields and the type.
#[cycle(join)]
#[tactic(auto, unfolding(crate::specs::Types::join))]
fn above_rows(
    b: &Ty,
    kind: Collection,
    place: Place,
    fields: &[Field],
    decls: &Decls,
    alloc: Global,
) -> Result<Ty, AllocError>
    ensures { IfOk result (λ ty. plain_type ty ≡ join decls.now (collection_of kind (tuple (types_of (map field_type fields.now)))) (plain_type b.now)) }
{
    let joined = match (kind, b) {
        (_, Ty::Void { .. }) => return Ok(rows_type(kind, place, share_fields(fields, alloc)?)),
        (Collection::List, Ty::List { element, .. }) | (Collection::Set, Ty::Set { element, .. }) =>
            above_tuple(element.get(), place, fields, decls, alloc)?,
        (Collection::List, Ty::ListRelation { fields: others, .. })
        | (Collection::Set, Ty::Relation { fields: others, .. }) => above_tuples(
            others.as_slice(),
            place,
            fields,
            decls,
            alloc,
        )?,
        _ => return Ok(Ty::Value { place }),
    };
    Ok(collection_type(kind, place, Shared::new(alloc, joined)?))
}

// The least type above the maps of the key and value and the type.
#[cycle(join)]
#[tactic(auto, unfolding(crate::specs::Types::join))]
fn above_map(
    b: &Ty,
    place: Place,
    key: &Shared<Ty>,
    value: &Shared<Ty>,
    decls: &Decls,
    alloc: Global,
) -> Result<Ty, AllocError>
    ensures { IfOk result (λ ty. plain_type ty ≡ join decls.now (mapping (plain_type key.now) (plain_type value.now)) (plain_type b.now)) }
{
    match b {
        Ty::Void { .. } => Ok(Ty::Map {
            place,
            key: key.share()?,
            value: value.share()?,
        }),
        Ty::Map {
            key: other_key,
            value: other_value,
            ..
        } => Ok(Ty::Map {
            place,
            key: Shared::new(
                alloc,
                least_above(other_key.get(), key.get(), decls, alloc)?,
            )?,
            value: Shared::new(
                alloc,
                least_above(other_value.get(), value.get(), decls, alloc)?,
            )?,
        }),
        _ => Ok(Ty::Value { place }),
    }
}

// The least type above the tuples of the fields and the type.
#[cycle(join)]
#[tactic(auto, unfolding(crate::specs::Types::join))]
fn above_tuple(
    b: &Ty,
    place: Place,
    fields: &[Field],
    decls: &Decls,
    alloc: Global,
) -> Result<Ty, AllocError>
    ensures { IfOk result (λ ty. plain_type ty ≡ join decls.now (tuple (types_of (map field_type fields.now))) (plain_type b.now)) }
{
    match b {
        Ty::Void { .. } => Ok(Ty::Tuple {
            place,
            fields: share_fields(fields, alloc)?,
        }),
        Ty::Tuple { fields: others, .. } => above_tuples(
            others.as_slice(),
            place,
            fields,
            decls,
            alloc,
        ),
        _ => Ok(Ty::Value { place }),
    }
}

// The least type above the type and the tuples of the fields.
#[cycle(join)]
#[tactic(auto, unfolding(crate::specs::Types::join))]
fn above_tuples_and(
    fields: &[Field],
    a: &Ty,
    decls: &Decls,
    alloc: Global,
) -> Result<Ty, AllocError>
    ensures { IfOk result (λ ty. plain_type ty ≡ join decls.now (plain_type a.now) (tuple (types_of (map field_type fields.now)))) }
{
    match a {
        Ty::Void { place } => Ok(Ty::Tuple {
            place: *place,
            fields: share_fields(fields, alloc)?,
        }),
        Ty::Tuple { place, fields: own } => above_tuples(
            fields,
            *place,
            own.as_slice(),
            decls,
            alloc,
        ),
        _ => Ok(Ty::Value { place: a.place() }),
    }
}

// The least type above the tuples of the fields, the others first.
#[cycle(join)]
fn above_tuples(
    others: &[Field],
    place: Place,
    fields: &[Field],
    decls: &Decls,
    alloc: Global,
) -> Result<Ty, AllocError>
    ensures { IfOk result (λ ty. plain_type ty ≡ join decls.now (tuple (types_of (map field_type fields.now))) (tuple (types_of (map field_type others.now)))) }
{
    if fields.len() == others.len() {
        let joined = Row::from_vec(alloc, join_fields(others, fields, decls, alloc)?)?;
        Ok(tuple_of(place, joined))
    } else {
        Ok(Ty::Value { place })
    }
}

fn tuple_of(place: Place, fields: Row<Field>) -> Ty
    ensures { plain_type result ≡ tuple (types_of (map field_type fields)) }
{
    Ty::Tuple { place, fields }
}

// The least types above the fields, the others first.
#[cycle(join)]
fn join_fields(
    others: &[Field],
    fields: &[Field],
    decls: &Decls,
    alloc: Global,
) -> Result<Vec<Field>, AllocError>
    requires { length fields.now ≡ length others.now }
    ensures { IfOk result (λ joined. types_of (map field_type joined.items) ≡ joins decls.now (types_of (map field_type fields.now)) (types_of (map field_type others.now))) }
{
    let mut joined = Vec::new(alloc);
    for i in 0..fields.len() {
        let ty = least_above(others[i].ty.get(), fields[i].ty.get(), decls, alloc)?;
        joined.push(Field {
            ty: Shared::new(alloc, ty)?,
            name: None,
        })?;
    }
    Ok(joined)
}

// Fields of the same types.
fn share_fields(fields: &[Field], alloc: Global) -> Result<Row<Field>, AllocError>
    ensures { IfOk result (λ shared. map field_type shared ≡ map field_type fields.now) }
{
    let mut shared = Vec::new(alloc);
    for field in fields {
        shared.push(Field {
            ty: field.ty.share()?,
            name: None,
        })?;
    }
    Row::from_vec(alloc, shared)
}

// The least type above the data type or sort of this name and the type.
#[tactic(auto, unfolding(crate::specs::Types::join))]
fn above_name(
    b: &Ty,
    place: Place,
    name: &Name,
    decls: &Decls,
    alloc: Global,
) -> Result<Ty, AllocError>
    ensures { IfOk result (λ ty. plain_type ty ≡ join decls.now (named name.now) (plain_type b.now)) }
{
    match b {
        Ty::Void { .. } => Ok(Ty::Named {
            place,
            name: name.share()?,
        }),
        Ty::Named { name: other, .. } => above_names(place, name, other.as_str(), decls, alloc),
        _ => Ok(Ty::Value { place }),
    }
}

// The least type above the two names.
fn above_names(
    place: Place,
    name: &Name,
    other: &str,
    decls: &Decls,
    alloc: Global,
) -> Result<Ty, AllocError>
    ensures { IfOk result (λ ty. plain_type ty ≡ join_names decls.now name.now other.now) }
{
    if name.as_str() == other {
        return Ok(Ty::Named {
            place,
            name: name.share()?,
        });
    }
    if is_tree(name.as_str(), decls) && is_tree(other, decls) {
        return Ok(Ty::Named {
            place,
            name: Name::from_str(alloc, TREE)?,
        });
    }
    Ok(Ty::Value { place })
}

// Whether the name is that of a sort, or of the type of all trees.
fn is_tree(name: &str, decls: &Decls) -> bool
    ensures { result ≡ is_tree decls.now name.now }
{
    decls.is_sort(name) || name == TREE
}
