//! Which types are below which.

ghost use Rattle.std.specs.Prelude.{◌≡◌, ◌||◌, ◌&&◌, map, length};
ghost use Rattle.std.specs.Str.{bytes_eq};
ghost use Rattle.rl_types.specs.Declarations.{is_sort};
ghost use Rattle.rl_types.specs.PlainType.{list, set, mapping, tuple, named, plain_type, field_type, types_of};
ghost use Rattle.rl_types.specs.Types.{subtype, subtypes, tree_name};

use crate::decls::Decls;
use rl_syntax::{Field, Ty};

/// The type of all syntax trees.
pub(crate) const TREE: &str = "Tree";

/// Whether the first type is below the second: each value that has the first has the second too.
#[cycle(subtype)]
#[tactic(auto, unfolding(crate::specs::Types::subtype))]
pub fn subtype(a: &Ty, b: &Ty, decls: &Decls) -> bool
    ensures { result ≡ subtype decls.now (plain_type a.now) (plain_type b.now) }
{
    match b {
        Ty::Value { .. } => true,
        Ty::Void { .. } => matches!(a, Ty::Void { .. }),
        Ty::Bool { .. } => matches!(a, Ty::Bool { .. } | Ty::Void { .. }),
        Ty::Int { .. } => matches!(a, Ty::Int { .. } | Ty::Void { .. }),
        Ty::Str { .. } => matches!(a, Ty::Str { .. } | Ty::Void { .. }),
        Ty::Loc { .. } => matches!(a, Ty::Loc { .. } | Ty::Void { .. }),
        Ty::List { element, .. } => is_below_list(a, element.get(), decls),
        Ty::ListRelation { fields, .. } => is_below_list_relation(a, fields.as_slice(), decls),
        Ty::Set { element, .. } => is_below_set(a, element.get(), decls),
        Ty::Relation { fields, .. } => is_below_relation(a, fields.as_slice(), decls),
        Ty::Map { key, value, .. } => is_below_map(a, key.get(), value.get(), decls),
        Ty::Tuple { fields, .. } => is_below_tuple(a, fields.as_slice(), decls),
        Ty::Named { name, .. } => is_below_name(a, name.as_str(), decls),
    }
}

// Whether the type is below the lists of the element.
#[cycle(subtype)]
#[tactic(auto, unfolding(crate::specs::Types::subtype))]
fn is_below_list(a: &Ty, element: &Ty, decls: &Decls) -> bool
    ensures { result ≡ subtype decls.now (plain_type a.now) (list (plain_type element.now)) }
{
    match a {
        Ty::Void { .. } => true,
        Ty::List { element: own, .. } => subtype(own.get(), element, decls),
        Ty::ListRelation { fields, .. } => is_tuple_below(fields.as_slice(), element, decls),
        _ => false,
    }
}

// Whether the type is below the lists of tuples of the fields.
#[cycle(subtype)]
#[tactic(auto, unfolding(crate::specs::Types::subtype))]
fn is_below_list_relation(a: &Ty, fields: &[Field], decls: &Decls) -> bool
    ensures { result ≡ subtype decls.now (plain_type a.now) (list (tuple (types_of (map field_type fields.now)))) }
{
    match a {
        Ty::Void { .. } => true,
        Ty::List { element, .. } => is_below_tuple(element.get(), fields, decls),
        Ty::ListRelation { fields: own, .. } => are_below(own.as_slice(), fields, decls),
        _ => false,
    }
}

// Whether the type is below the sets of the element.
#[cycle(subtype)]
#[tactic(auto, unfolding(crate::specs::Types::subtype))]
fn is_below_set(a: &Ty, element: &Ty, decls: &Decls) -> bool
    ensures { result ≡ subtype decls.now (plain_type a.now) (set (plain_type element.now)) }
{
    match a {
        Ty::Void { .. } => true,
        Ty::Set { element: own, .. } => subtype(own.get(), element, decls),
        Ty::Relation { fields, .. } => is_tuple_below(fields.as_slice(), element, decls),
        _ => false,
    }
}

// Whether the type is below the sets of tuples of the fields.
#[cycle(subtype)]
#[tactic(auto, unfolding(crate::specs::Types::subtype))]
fn is_below_relation(a: &Ty, fields: &[Field], decls: &Decls) -> bool
    ensures { result ≡ subtype decls.now (plain_type a.now) (set (tuple (types_of (map field_type fields.now)))) }
{
    match a {
        Ty::Void { .. } => true,
        Ty::Set { element, .. } => is_below_tuple(element.get(), fields, decls),
        Ty::Relation { fields: own, .. } => are_below(own.as_slice(), fields, decls),
        _ => false,
    }
}

// Whether the type is below the maps of the key and value.
#[cycle(subtype)]
#[tactic(auto, unfolding(crate::specs::Types::subtype))]
fn is_below_map(a: &Ty, key: &Ty, value: &Ty, decls: &Decls) -> bool
    ensures { result ≡ subtype decls.now (plain_type a.now) (mapping (plain_type key.now) (plain_type value.now)) }
{
    match a {
        Ty::Void { .. } => true,
        Ty::Map {
            key: own_key,
            value: own_value,
            ..
        } => subtype(own_key.get(), key, decls) && subtype(own_value.get(), value, decls),
        _ => false,
    }
}

// Whether the type is below the tuples of the fields.
#[cycle(subtype)]
#[tactic(auto, unfolding(crate::specs::Types::subtype))]
fn is_below_tuple(a: &Ty, fields: &[Field], decls: &Decls) -> bool
    ensures { result ≡ subtype decls.now (plain_type a.now) (tuple (types_of (map field_type fields.now))) }
{
    match a {
        Ty::Void { .. } => true,
        Ty::Tuple { fields: own, .. } => are_below(own.as_slice(), fields, decls),
        _ => false,
    }
}

// Whether the tuples of the fields are below the type.
#[cycle(subtype)]
#[tactic(auto, unfolding(crate::specs::Types::subtype))]
fn is_tuple_below(fields: &[Field], b: &Ty, decls: &Decls) -> bool
    ensures { result ≡ subtype decls.now (tuple (types_of (map field_type fields.now))) (plain_type b.now) }
{
    match b {
        Ty::Value { .. } => true,
        Ty::Tuple { fields: others, .. } => are_below(fields, others.as_slice(), decls),
        _ => false,
    }
}

// Whether there are as many fields, and each is below its own.
#[cycle(subtype)]
#[tactic(auto, unfolding(crate::specs::Types::subtype))]
fn are_below(a: &[Field], b: &[Field], decls: &Decls) -> bool
    ensures { result ≡ subtypes decls.now (types_of (map field_type a.now)) (types_of (map field_type b.now)) }
{
    if a.len() != b.len() {
        return false;
    }
    for i in 0..a.len() {
        if !subtype(a[i].ty.get(), b[i].ty.get(), decls) {
            return false;
        }
    }
    true
}

// Whether the type is below the data type or sort of this name.
#[tactic(auto, unfolding(crate::specs::Types::subtype))]
fn is_below_name(a: &Ty, name: &str, decls: &Decls) -> bool
    ensures { result ≡ subtype decls.now (plain_type a.now) (named name.now) }
{
    match a {
        Ty::Void { .. } => true,
        Ty::Named { name: own, .. } => is_name_below(own.as_str(), name, decls),
        _ => false,
    }
}

// A name is below itself, and a sort below the type of all trees.
fn is_name_below(a: &str, b: &str, decls: &Decls) -> bool
    ensures { result ≡ (bytes_eq a.now b.now || (is_sort decls.now a.now && bytes_eq b.now tree_name)) }
{
    a == b || (decls.is_sort(a) && b == TREE)
}
