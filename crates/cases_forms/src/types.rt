//! Types and fields.

use crate::names::{begin, finish, show_name};
use rl_syntax::{Field, Ty};
use std::io;

fn word(ty: &Ty) -> &str {
    match ty {
        Ty::List { .. } => "list",
        Ty::Set { .. } => "set",
        Ty::Map { .. } => "map",
        Ty::Tuple { .. } => "tuple",
        Ty::Relation { .. } => "rel",
        Ty::ListRelation { .. } => "lrel",
        Ty::Bool { .. } => "bool",
        Ty::Int { .. } => "int",
        Ty::Str { .. } => "str",
        Ty::Loc { .. } => "loc",
        Ty::Void { .. } => "void",
        Ty::Value { .. } => "value",
        Ty::Named { name, .. } => name.as_str(),
    }
}

#[cycle(show_type)]
pub(crate) fn show_type<R: Print>(rt: &R, ty: &Ty) -> io::Result<()> {
    begin(rt, word(ty), ty.place())?;
    match ty {
        Ty::List { element, .. } | Ty::Set { element, .. } => show_type(rt, element.get())?,
        Ty::Map { key, value, .. } => {
            show_type(rt, key.get())?;
            show_type(rt, value.get())?;
        }
        Ty::Tuple { fields, .. } | Ty::Relation { fields, .. } | Ty::ListRelation { fields, .. } =>
            {
                show_fields(rt, fields.as_slice())?;
            }
        _ => {}
    }
    finish(rt)
}

#[cycle(show_type)]
pub(crate) fn show_fields<R: Print>(rt: &R, fields: &[Field]) -> io::Result<()> {
    for field in fields {
        show_type(rt, field.ty.get())?;
        if let Some(name) = &field.name {
            show_name(rt, name)?;
        }
    }
    Ok(())
}
