//! How a program is made of its modules.

ghost use Rattle.std.specs.Prelude.{◌≡◌, ℕ, List, [], ◌∷◌, ◌++◌, Option, OnOk, is_some};
ghost use Rattle.std.specs.List.{list_any};
ghost use Rattle.rl_syntax.specs.declared.expression.Exp.{out-Exp};
ghost use Rattle.rl_syntax.specs.declared.pattern.Pattern.{out-Pattern};
ghost use Rattle.rl_syntax.specs.declared.ty.Ty.{out-Ty};
ghost use Rattle.rl_syntax.specs.Fault.{fault_at};
ghost use Rattle.rl_eval.specs.Preparation.{all_built, text_of, only_text, printed_in, statement_of, is_str, is_list_of_str, takes_words, parameters_built, is_void, statements_in, function_of, is_main, is_built_name, declaration_built, declarations_built, imports_io, module_declarations, others_built, prepared_of, IsBuilt, Prepares, Refuses};

use crate::literal::Literal;
use crate::program::Program;
use rl_base::{Name, Place, Row, Shared};
use rl_syntax::{Body, Decl, Exp, Fault, Function, Module, Modules, Pattern, Stat, Ty};
use std::alloc::{AllocError, Global};

// A text of a literal has fewer bytes than this: 2^24.
const TEXT_LIMIT: usize = 16_777_216;

/// Why no program was made.
#[derive(Debug, Drop)]
pub enum PrepareEnd {
    /// The first fault. M12: a form is not built yet, at its first token. M29: all forms are built, and the first module has no
    /// `main`, at its start.
    Fault(Fault),
    OutOfMemory,
}

impl From<AllocError> for PrepareEnd {
    ghost use Rattle.std.specs.Prelude.{◌≡◌};
    ghost use Rattle.rl_eval.specs.declared.preparation.PrepareEnd.TheVariants.{OutOfMemory};

    ghost from_gives = { λ _ end. end ≡ OutOfMemory };

    fn from(_: AllocError) -> PrepareEnd {
        PrepareEnd::OutOfMemory
    }
}

/// Why a form was not taken.
#[derive(Clone, Copy, Debug, PartialEq, Eq)]
pub enum Unbuilt {
    /// What begins here is not built yet.
    At(Place),
    OutOfMemory,
}

impl From<AllocError> for Unbuilt {
    ghost use Rattle.std.specs.Prelude.{◌≡◌};
    ghost use Rattle.rl_eval.specs.declared.preparation.Unbuilt.TheVariants.{OutOfMemory};

    ghost from_gives = { λ _ end. end ≡ OutOfMemory };

    fn from(_: AllocError) -> Unbuilt {
        Unbuilt::OutOfMemory
    }
}

// A string literal.
fn text(expression: &Exp) -> Result<Literal, Unbuilt>
    ensures { IsBuilt (text_of expression.now) result }
{
    match expression {
        Exp::Text { place, value } => {
            if value.as_str().len() < TEXT_LIMIT {
                Ok(Literal::new(value)?)
            } else {
                Err(Unbuilt::At(*place))
            }
        }
        _ => Err(Unbuilt::At(expression.place())),
    }
}

// The one argument of a call at a place, where it is a string literal.
fn only_text(place: Place, arguments: &[Shared<Exp>]) -> Result<Literal, Unbuilt>
    ensures { IsBuilt (only_text place arguments.now) result }
{
    match arguments {
        [argument] => text(argument.get()),
        _ => Err(Unbuilt::At(place)),
    }
}

// The literal that a call at a place prints.
fn printed(visible: bool, place: Place, expression: &Exp) -> Result<Literal, Unbuilt>
    ensures { IsBuilt (printed_in visible place (out-Exp expression.now)) result }
{
    match expression {
        Exp::Call {
            name,
            arguments,
            ..
        } => {
            if visible && name.name.as_str() == "println" {
                only_text(place, arguments.as_slice())
            } else {
                Err(Unbuilt::At(place))
            }
        }
        _ => Err(Unbuilt::At(place)),
    }
}

// The literal that a statement prints.
fn statement(visible: bool, statement: &Stat) -> Result<Literal, Unbuilt>
    ensures { IsBuilt (statement_of visible statement.now) result }
{
    match statement {
        Stat::Expression { place, value } => printed(visible, *place, value.get()),
        _ => Err(Unbuilt::At(statement.place())),
    }
}

// The literals that statements print.
fn statements(alloc: Global, visible: bool, body: &[Shared<Stat>]) -> Result<Row<Literal>, Unbuilt>
    ensures { IsBuilt (all_built (statement_of visible) body.now) result }
{
    let mut literals = Vec::new(alloc);
    for one in body {
        match statement(visible, one.get()) {
            Ok(literal) => add(&mut literals, literal)?,
            Err(end) => return Err(end),
        }
    }
    Ok(Row::from_vec(alloc, literals)?)
}

fn add(literals: &mut Vec<Literal>, literal: Literal) -> Result<(), AllocError>
    ensures { OnOk result (literals.new.items ≡ literals.old.items ++ literal ∷ []) }
{
    literals.push(literal)?;
    Ok(())
}

fn is_str(ty: &Ty) -> bool
    ensures { result ≡ is_str (out-Ty ty.now) }
{
    matches!(ty, Ty::Str { .. })
}

fn is_list_of_str(ty: &Ty) -> bool
    ensures { result ≡ is_list_of_str (out-Ty ty.now) }
{
    match ty {
        Ty::List { element, .. } => is_str(element.get()),
        _ => false,
    }
}

// Whether a parameter is `list[str] x`.
fn takes_words(parameter: &Pattern) -> bool
    ensures { result ≡ takes_words (out-Pattern parameter.now) }
{
    match parameter {
        Pattern::TypedVariable { ty, .. } => is_list_of_str(ty.get()),
        _ => false,
    }
}

// The parameters of `main`, which begins at a place.
fn parameters(place: Place, parameters: &[Shared<Pattern>]) -> Result<(), Unbuilt>
    ensures { IsBuilt (parameters_built place parameters.now) result }
{
    match parameters {
        [] => Ok(()),
        [one] => {
            if takes_words(one.get()) {
                Ok(())
            } else {
                Err(Unbuilt::At(one.get().place()))
            }
        }
        _ => Err(Unbuilt::At(place)),
    }
}

fn is_void(ty: &Ty) -> bool
    ensures { result ≡ is_void (out-Ty ty.now) }
{
    matches!(ty, Ty::Void { .. })
}

// The literals that a function prints.
fn function(alloc: Global, visible: bool, function: &Function) -> Result<Row<Literal>, Unbuilt>
    ensures { IsBuilt (function_of visible function.now) result }
{
    if !is_void(&function.ty) {
        return Err(Unbuilt::At(function.place));
    }
    match &function.body {
        Body::Value { .. } => Err(Unbuilt::At(function.place)),
        Body::Statements(body) => match parameters(function.place, function.parameters.as_slice()) {
            Ok(()) => statements(alloc, visible, body.as_slice()),
            Err(end) => Err(end),
        },
    }
}

// Whether a function of the first module, or of another, is the one that runs.
fn is_main(first: bool, name: &str) -> bool
    ensures { result ≡ is_main first name.now }
{
    first && name == "main"
}

// Whether a function may have the name, where the one that runs was found before it or not.
fn is_built_name(first: bool, is_found: bool, name: &str) -> bool
    ensures { (found : Option (List (List ℕ))) → is_some found ≡ is_found → result ≡ is_built_name first found name.now }
{
    name != "println" && !(is_main(first, name) && is_found)
}

// What is found behind a declaration: the literals that `main` prints.
fn declaration(
    alloc: Global,
    visible: bool,
    first: bool,
    found: Option<Row<Literal>>,
    declaration: &Decl,
) -> Result<Option<Row<Literal>>, Unbuilt>
    ensures { IsBuilt (declaration_built visible first found declaration.now) result }
{
    match declaration {
        Decl::Import { .. } | Decl::Extend { .. } => Ok(found),
        Decl::Function(shared) => {
            let one = shared.get();
            let name = one.name.name.as_str();
            if !is_built_name(first, found.is_some(), name) {
                return Err(Unbuilt::At(one.place));
            }
            match function(alloc, visible, one) {
                Ok(literals) => {
                    if is_main(first, name) {
                        Ok(Some(literals))
                    } else {
                        Ok(found)
                    }
                }
                Err(end) => Err(end),
            }
        }
        _ => Err(Unbuilt::At(declaration.place())),
    }
}

fn imports_io(declaration: &Decl) -> bool
    ensures { result ≡ imports_io declaration.now }
{
    match declaration {
        Decl::Import { module, .. } | Decl::Extend { module, .. } => module.as_str() == "IO",
        _ => false,
    }
}

// Whether `println` is visible in a module.
fn has_println(declarations: &[Decl]) -> bool
    ensures { result ≡ list_any imports_io declarations.now }
{
    declarations.iter().any(imports_io)
}

// What is found in a module.
fn module_declarations(
    alloc: Global,
    first: bool,
    declarations: &[Decl],
) -> Result<Option<Row<Literal>>, Unbuilt>
    ensures { IsBuilt (module_declarations first declarations.now) result }
{
    let visible = has_println(declarations);
    let mut found = None;
    for one in declarations {
        match declaration(alloc, visible, first, found, one) {
            Ok(more) => found = more,
            Err(end) => return Err(end),
        }
    }
    Ok(found)
}

// The fault of a code at a place in the file of a path.
fn fault(path: &Name, place: Place, code: u8) -> PrepareEnd
    ensures { Prepares {A = List (List ℕ)} (Err (fault_at (path.now, place) code)) (Err result) }
{
    match path.share() {
        Ok(path) => PrepareEnd::Fault(Fault { path, place, code }),
        Err(_) => PrepareEnd::OutOfMemory,
    }
}

// Why a module was not taken.
fn refusal(module: &Module, end: Unbuilt) -> PrepareEnd
    ensures { Refuses «module».now.path end result }
{
    match end {
        Unbuilt::At(place) => fault(&module.path, place, 12),
        Unbuilt::OutOfMemory => PrepareEnd::OutOfMemory,
    }
}

// The functions of the other modules, of which none runs.
fn others(alloc: Global, modules: &[Module]) -> Result<(), PrepareEnd>
    ensures { Prepares (others_built modules.now) result }
{
    for module in modules {
        match module_declarations(alloc, false, module.declarations.as_slice()) {
            Ok(_) => {}
            Err(end) => return Err(refusal(module, end)),
        }
    }
    Ok(())
}

// Where a file begins.
const START: Place = Place {
    module: 0,
    offset: 0,
    line: 1,
    column: 1,
};

/// Makes a program of modules, as far as the language is built.
///
/// Each module has imports, extends and functions, and the first one a `main`, which alone runs. A function is `void`, has no
/// parameter or one `list[str] x`, and prints string literals by `println`, where its module imports `IO`. What else there is,
/// is not built.
pub fn prepare(alloc: Global, modules: Modules) -> Result<Program, PrepareEnd>
    ensures { Prepares (prepared_of modules.list) result }
{
    let list = modules.list.as_slice();
    let Some(first) = list.first() else {
        return Err(fault(&Name::from_str(alloc, "")?, START, 29));
    };
    match module_declarations(alloc, true, first.declarations.as_slice()) {
        Err(end) => Err(refusal(first, end)),
        Ok(found) => match others(alloc, &list[1..]) {
            Err(end) => Err(end),
            Ok(()) => match found {
                Some(literals) => Ok(Program::new(literals)),
                None => Err(fault(&first.path, START, 29)),
            },
        },
    }
}
