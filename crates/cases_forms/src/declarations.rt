//! Declarations.

use crate::expressions::{show_expression, show_expressions, show_statements};
use crate::grammar::show_definition;
use crate::names::{begin, finish, show_name};
use crate::patterns::show_patterns;
use crate::types::{show_fields, show_type};
use rl_syntax::{Body, Decl, Function, Module, Variant};
use std::io;

fn show_variant<R: Print>(rt: &R, variant: &Variant) -> io::Result<()> {
    show_name(rt, &variant.name)?;
    print!(rt; " [")?;
    show_fields(rt, variant.fields.as_slice())?;
    print!(rt; " ]")
}

fn show_body<R: Print>(rt: &R, body: &Body) -> io::Result<()> {
    match body {
        Body::Value { value, conditions } => {
            print!(rt; " =")?;
            show_expression(rt, value.get())?;
            print!(rt; " when")?;
            show_expressions(rt, conditions.as_slice())
        }
        Body::Statements(statements) => show_statements(rt, statements.as_slice()),
    }
}

fn show_function<R: Print>(rt: &R, function: &Function) -> io::Result<()> {
    begin(rt, "function", function.place)?;
    print!(rt; " {} {:?}", function.private, function.modifier)?;
    show_type(rt, &function.ty)?;
    show_name(rt, &function.name)?;
    print!(rt; " [")?;
    show_patterns(rt, function.parameters.as_slice())?;
    print!(rt; " ]")?;
    show_body(rt, &function.body)?;
    finish(rt)
}

fn show_declaration<R: Print>(rt: &R, declaration: &Decl) -> io::Result<()> {
    let place = declaration.place();
    print!(rt; "{}", place.line)?;
    match declaration {
        Decl::Import { module, .. } => println!(rt; " import@{} {}", place.column, module.as_str()),
        Decl::Extend { module, .. } => println!(rt; " extend@{} {}", place.column, module.as_str()),
        Decl::Syntax(definition) => {
            show_definition(rt, definition.get())?;
            println!(rt)
        }
        Decl::Data { name, variants, .. } => {
            begin(rt, "data", place)?;
            show_name(rt, name)?;
            for variant in variants.as_slice() {
                show_variant(rt, variant)?;
            }
            println!(rt; ")")
        }
        Decl::Global {
            private,
            ty,
            name,
            value,
            ..
        } => {
            begin(rt, "global", place)?;
            print!(rt; " {private}")?;
            show_type(rt, ty.get())?;
            show_name(rt, name)?;
            show_expression(rt, value.get())?;
            println!(rt; ")")
        }
        Decl::Function(function) => {
            show_function(rt, function.get())?;
            println!(rt)
        }
    }
}

/// Prints what is in the module.
pub(crate) fn show_module<R: Print>(rt: &R, module: &Module) -> io::Result<()> {
    println!(rt; "module {} {}", module.name.as_str(), module.path.as_str())?;
    for declaration in module.declarations.as_slice() {
        show_declaration(rt, declaration)?;
    }
    Ok(())
}
