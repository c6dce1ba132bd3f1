//! What is in a module, as lines.

use rl_syntax::{Body, Decl, Exp, Function, Module, Pattern, Stat, Ty};
use std::io;

fn word(ty: &Ty) -> &str {
    match ty {
        Ty::List { .. } => "list",
        Ty::Set { .. } => "set",
        Ty::Map { .. } => "map",
        Ty::Tuple { .. } => "tuple",
        Ty::Relation { .. } => "rel",
        Ty::ListRelation { .. } => "lrel",
        Ty::Bool { .. } => "bool",
        Ty::Int { .. } => "int",
        Ty::Str { .. } => "str",
        Ty::Loc { .. } => "loc",
        Ty::Void { .. } => "void",
        Ty::Value { .. } => "value",
        Ty::Named { name, .. } => name.as_str(),
    }
}

fn show_type<R: Print>(rt: &R, ty: &Ty) -> io::Result<()> {
    print!(rt; "{}", word(ty))?;
    match ty {
        Ty::List { element, .. } | Ty::Set { element, .. } => print!(rt;
            "[{}]",
            word(element.get())
        ),
        Ty::Map { key, value, .. } => print!(rt; "[{},{}]", word(key.get()), word(value.get())),
        Ty::Tuple { fields, .. } | Ty::Relation { fields, .. } | Ty::ListRelation { fields, .. } =>
            {
                for field in fields.as_slice() {
                    print!(rt; " {}", word(field.ty.get()))?;
                    if let Some(name) = &field.name {
                        print!(rt; " {}", name.name.as_str())?;
                    }
                }
                Ok(())
            }
        _ => Ok(()),
    }
}

fn show_parameter<R: Print>(rt: &R, pattern: &Pattern) -> io::Result<()> {
    match pattern {
        Pattern::TypedVariable {
            place,
            ty,
            variable,
        } => {
            print!(rt; "  parameter {}:{} ", place.line, place.column)?;
            show_type(rt, ty.get())?;
            println!(rt; " {} {}", variable.name.as_str(), variable.place.column)
        }
        _ => println!(rt; "  another pattern"),
    }
}

fn show_argument<R: Print>(rt: &R, expression: &Exp) -> io::Result<()> {
    match expression {
        Exp::Text { place, value } => println!(rt;
            "    text {} {:?}",
            place.column,
            value.as_str()
        ),
        Exp::Call {
            place,
            name,
            arguments,
        } => println!(rt;
            "    call {} {} {}",
            place.column,
            name.name.as_str(),
            arguments.len()
        ),
        _ => println!(rt; "    another expression"),
    }
}

fn show_statement<R: Print>(rt: &R, statement: &Stat) -> io::Result<()> {
    match statement {
        Stat::Expression { place, value } => {
            println!(rt; "  statement {}:{}", place.line, place.column)?;
            match value.get() {
                Exp::Call {
                    name,
                    arguments,
                    ..
                } => {
                    println!(rt; "   call {} {}", name.name.as_str(), name.place.column)?;
                    for argument in arguments.as_slice() {
                        show_argument(rt, argument.get())?;
                    }
                    Ok(())
                }
                _ => println!(rt; "   another expression"),
            }
        }
        _ => println!(rt; "  another statement"),
    }
}

fn show_function<R: Print>(rt: &R, function: &Function) -> io::Result<()> {
    let private = if function.private { "private " } else { "" };
    print!(rt;
        " {private}function {}:{} ",
        function.place.line, function.place.column
    )?;
    show_type(rt, &function.ty)?;
    println!(rt;
        " {} {}",
        function.name.name.as_str(),
        function.name.place.column
    )?;
    for parameter in function.parameters.as_slice() {
        show_parameter(rt, parameter.get())?;
    }
    match &function.body {
        Body::Statements(statements) => {
            for statement in statements.as_slice() {
                show_statement(rt, statement.get())?;
            }
            Ok(())
        }
        Body::Value { .. } => println!(rt; "  a value"),
    }
}

fn show_declaration<R: Print>(rt: &R, declaration: &Decl) -> io::Result<()> {
    let place = declaration.place();
    match declaration {
        Decl::Import { module, .. } => println!(rt;
            " import {}:{} {}",
            place.line,
            place.column,
            module.as_str()
        ),
        Decl::Extend { module, .. } => println!(rt;
            " extend {}:{} {}",
            place.line,
            place.column,
            module.as_str()
        ),
        Decl::Function(function) => show_function(rt, function.get()),
        _ => println!(rt; " another declaration"),
    }
}

/// Prints what is in the module.
pub fn show_module<R: Print>(rt: &R, module: &Module) -> io::Result<()> {
    let place = module.place;
    println!(rt;
        "module {} {} {} {}:{}",
        module.name.as_str(),
        module.path.as_str(),
        place.module,
        place.line,
        place.column
    )?;
    for declaration in module.declarations.as_slice() {
        show_declaration(rt, declaration)?;
    }
    Ok(())
}
