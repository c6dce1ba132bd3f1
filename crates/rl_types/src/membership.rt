//! Which values have which types.

ghost use Rattle.std.specs.Prelude.{◌≡◌, map};
ghost use Rattle.rl_value.specs.Plain.{plains_of, pairs_of};
ghost use Rattle.rl_value.specs.View.{pair_of};
ghost use Rattle.rl_types.specs.Declarations.{Declarations, constructor as constructor_in};
ghost use Rattle.rl_types.specs.PlainType.{str, list, set, mapping, tuple, named, value as value_type, plain_type, field_type, types_of};
ghost use Rattle.rl_types.specs.Types.{has, all_have, each_has, pairs_have, is_of};

use crate::decls::Decls;
use crate::subtyping::TREE;
use rl_syntax::{Field, Ty};
use rl_value::{Entry, Opened, Value};

/// Whether the value has the type. An empty list, set or map has every type of its kind.
pub fn has(value: &Value, ty: &Ty, decls: &Decls) -> bool
    ensures { result ≡ has decls.now value.now (plain_type ty.now) }
{
    admits(ty, value, decls)
}

// Whether the type has the value.
#[cycle(admits)]
#[tactic(auto, unfolding(crate::specs::Types::has))]
fn admits(ty: &Ty, value: &Value, decls: &Decls) -> bool
    ensures { result ≡ has decls.now value.now (plain_type ty.now) }
{
    match ty {
        Ty::Value { .. } => true,
        Ty::Void { .. } => false,
        Ty::Bool { .. } => value.as_bool().is_some(),
        Ty::Int { .. } => value.as_int().is_some(),
        Ty::Str { .. } => is_text(value),
        Ty::Loc { .. } => value.path().is_some(),
        Ty::List { element, .. } => list_admits(element.get(), value, decls),
        Ty::ListRelation { fields, .. } => list_relation_admits(fields.as_slice(), value, decls),
        Ty::Set { element, .. } => set_admits(element.get(), value, decls),
        Ty::Relation { fields, .. } => relation_admits(fields.as_slice(), value, decls),
        Ty::Map {
            key,
            value: content,
            ..
        } => map_admits_keys(key.get(), value, decls)
            && map_admits_contents(content.get(), value, decls),
        Ty::Tuple { fields, .. } => tuple_admits(fields.as_slice(), value, decls),
        Ty::Named { name, .. } => name_admits(name.as_str(), value, decls),
    }
}

// Whether the value is a text.
#[tactic(auto, unfolding(crate::specs::Types::has))]
fn is_text(value: &Value) -> bool
    ensures { (d : Declarations) → result ≡ has d value.now str }
{
    matches!(value.open(), Opened::Text(_))
}

// Whether the value is a list of the element.
#[cycle(admits)]
#[tactic(auto, unfolding(crate::specs::Types::has))]
fn list_admits(element: &Ty, value: &Value, decls: &Decls) -> bool
    ensures { result ≡ has decls.now value.now (list (plain_type element.now)) }
{
    match value.open() {
        Opened::List(items) => all_admitted(element, items, decls),
        _ => false,
    }
}

// Whether the value is a list of tuples of the fields.
#[cycle(admits)]
#[tactic(auto, unfolding(crate::specs::Types::has))]
fn list_relation_admits(fields: &[Field], value: &Value, decls: &Decls) -> bool
    ensures { result ≡ has decls.now value.now (list (tuple (types_of (map field_type fields.now)))) }
{
    match value.open() {
        Opened::List(items) => all_tuples_admitted(fields, items, decls),
        _ => false,
    }
}

// Whether the value is a set of the element.
#[cycle(admits)]
#[tactic(auto, unfolding(crate::specs::Types::has))]
fn set_admits(element: &Ty, value: &Value, decls: &Decls) -> bool
    ensures { result ≡ has decls.now value.now (set (plain_type element.now)) }
{
    match value.open() {
        Opened::Set(items) => all_admitted(element, items, decls),
        _ => false,
    }
}

// Whether the value is a set of tuples of the fields.
#[cycle(admits)]
#[tactic(auto, unfolding(crate::specs::Types::has))]
fn relation_admits(fields: &[Field], value: &Value, decls: &Decls) -> bool
    ensures { result ≡ has decls.now value.now (set (tuple (types_of (map field_type fields.now)))) }
{
    match value.open() {
        Opened::Set(items) => all_tuples_admitted(fields, items, decls),
        _ => false,
    }
}

// Whether the value is a map from the key.
#[cycle(admits)]
#[tactic(auto, unfolding(crate::specs::Types::has))]
fn map_admits_keys(key: &Ty, value: &Value, decls: &Decls) -> bool
    ensures { result ≡ has decls.now value.now (mapping (plain_type key.now) value_type) }
{
    match value.open() {
        Opened::Map(entries) => keys_admitted(key, entries, decls),
        _ => false,
    }
}

// Whether the value is a map to the content.
#[cycle(admits)]
#[tactic(auto, unfolding(crate::specs::Types::has))]
fn map_admits_contents(content: &Ty, value: &Value, decls: &Decls) -> bool
    ensures { result ≡ has decls.now value.now (mapping value_type (plain_type content.now)) }
{
    match value.open() {
        Opened::Map(entries) => contents_admitted(content, entries, decls),
        _ => false,
    }
}

// Whether the value is a tuple of the fields.
#[cycle(admits)]
#[tactic(auto, unfolding(crate::specs::Types::has))]
fn tuple_admits(fields: &[Field], value: &Value, decls: &Decls) -> bool
    ensures { result ≡ has decls.now value.now (tuple (types_of (map field_type fields.now))) }
{
    match value.open() {
        Opened::Tuple(parts) => each_admitted(fields, parts, decls),
        _ => false,
    }
}

// Whether the value is of the data type, or a tree of the sort.
#[tactic(auto, using(crate::proofs::Members::value_count_plains_of), unfolding(crate::specs::Types::has))]
fn name_admits(name: &str, value: &Value, decls: &Decls) -> bool
    ensures { result ≡ has decls.now value.now (named name.now) }
{
    match value.open() {
        Opened::Node(constructor, parts) => is_of(name, constructor, parts.len(), decls),
        Opened::Tree(shape, _) => shape.sort.as_str() == name || name == TREE,
        _ => false,
    }
}

// Whether the constructor with this name and as many fields is of the data type.
fn is_of(name: &str, constructor: &str, count: usize, decls: &Decls) -> bool
    ensures { result ≡ is_of (constructor_in decls.now constructor.now count) name.now }
{
    match decls.constructor(constructor, count) {
        Some(found) => found.owner.as_str() == name,
        None => false,
    }
}

// Whether each value has the type.
#[cycle(admits)]
#[tactic(auto, unfolding(crate::specs::Types::has))]
fn all_admitted(ty: &Ty, values: &[Value], decls: &Decls) -> bool
    ensures { result ≡ all_have decls.now (plains_of values.now) (plain_type ty.now) }
{
    for value in values {
        if !admits(ty, value, decls) {
            return false;
        }
    }
    true
}

// Whether each value is a tuple of the fields.
#[cycle(admits)]
#[tactic(auto, unfolding(crate::specs::Types::has))]
fn all_tuples_admitted(fields: &[Field], values: &[Value], decls: &Decls) -> bool
    ensures { result ≡ all_have decls.now (plains_of values.now) (tuple (types_of (map field_type fields.now))) }
{
    for value in values {
        if !tuple_admits(fields, value, decls) {
            return false;
        }
    }
    true
}

// Whether each key has the type.
#[cycle(admits)]
#[tactic(auto, unfolding(crate::specs::Types::has))]
fn keys_admitted(key: &Ty, entries: &[Entry], decls: &Decls) -> bool
    ensures { result ≡ pairs_have decls.now (pairs_of (map pair_of entries.now)) (plain_type key.now) value_type }
{
    for entry in entries {
        if !admits(key, &entry.key, decls) {
            return false;
        }
    }
    true
}

// Whether what stands at each key has the type.
#[cycle(admits)]
#[tactic(auto, unfolding(crate::specs::Types::has))]
fn contents_admitted(content: &Ty, entries: &[Entry], decls: &Decls) -> bool
    ensures { result ≡ pairs_have decls.now (pairs_of (map pair_of entries.now)) value_type (plain_type content.now) }
{
    for entry in entries {
        if !admits(content, &entry.value, decls) {
            return false;
        }
    }
    true
}

// Whether there are as many values as fields, and each has its type.
#[cycle(admits)]
#[tactic(auto, unfolding(crate::specs::Types::has))]
fn each_admitted(fields: &[Field], values: &[Value], decls: &Decls) -> bool
    ensures { result ≡ each_has decls.now (plains_of values.now) (types_of (map field_type fields.now)) }
{
    if fields.len() != values.len() {
        return false;
    }
    for i in 0..fields.len() {
        if !admits(fields[i].ty.get(), &values[i], decls) {
            return false;
        }
    }
    true
}
