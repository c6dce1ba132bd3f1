//! Expressions and statements.

use crate::names::{begin, finish, show_name, show_names};
use crate::patterns::{show_fragment, show_pattern};
use crate::types::show_type;
use rl_base::Shared;
use rl_syntax::{Case, Exp, Handler, Stat, Suffix};
use std::fmt::Debug;
use std::io;

fn word(expression: &Exp) -> &str {
    match expression {
        Exp::Conditional { .. } => "conditional",
        Exp::Fallback { .. } => "fallback",
        Exp::Implication { .. } => "==>",
        Exp::Equivalence { .. } => "<==>",
        Exp::Disjunction { .. } => "||",
        Exp::Conjunction { .. } => "&&",
        Exp::Match { .. } => ":=",
        Exp::NoMatch { .. } => "!:=",
        Exp::Enumeration { .. } => "<-",
        Exp::Equal { .. } => "==",
        Exp::NotEqual { .. } => "!=",
        Exp::Compared { .. } => "compared",
        Exp::Is { .. } => "is",
        Exp::Sum { .. } => "sum",
        Exp::Product { .. } => "product",
        Exp::Composition { .. } => "o",
        Exp::Not { .. } => "!",
        Exp::Negative { .. } => "-",
        Exp::Suffixed { .. } => "suffixed",
        Exp::Integer { .. } => "integer",
        Exp::Text { .. } => "text",
        Exp::Interpolation { .. } => "interpolation",
        Exp::Location { .. } => "location",
        Exp::Truth { .. } => "truth",
        Exp::It { .. } => "it",
        Exp::Visit { .. } => "visit",
        Exp::Fragment { .. } => "concrete",
        Exp::Parenthesized { .. } => "parenthesized",
        _ => container_word(expression),
    }
}

fn container_word(expression: &Exp) -> &str {
    match expression {
        Exp::Reducer { .. } => "reducer",
        Exp::Map { .. } => "map",
        Exp::MapComprehension { .. } => "map-comprehension",
        Exp::Range { .. } => "range",
        Exp::List { .. } => "list",
        Exp::ListComprehension { .. } => "list-comprehension",
        Exp::Set { .. } => "set",
        Exp::SetComprehension { .. } => "set-comprehension",
        Exp::Tuple { .. } => "tuple",
        Exp::Call { .. } => "call",
        Exp::Splice { .. } => "splice",
        Exp::TypeName { .. } => "#",
        Exp::StartSort { .. } => "#start",
        Exp::Loop { .. } => "loop",
        _ => "variable",
    }
}

fn statement_word(statement: &Stat) -> &str {
    match statement {
        Stat::Block { .. } => "block",
        Stat::If { .. } => "if",
        Stat::Switch { .. } => "switch",
        Stat::For { .. } => "for",
        Stat::While { .. } => "while",
        Stat::Do { .. } => "do",
        Stat::Solve { .. } => "solve",
        Stat::Try { .. } => "try",
        Stat::Return { .. } => "return",
        Stat::ReturnValue { .. } => "return-value",
        Stat::Insert { .. } => "insert",
        Stat::Append { .. } => "append",
        Stat::Throw { .. } => "throw",
        Stat::Fail { .. } => "fail",
        Stat::Break { .. } => "break",
        Stat::Continue { .. } => "continue",
        Stat::Empty { .. } => "empty",
        Stat::Declaration { .. } => "declare",
        Stat::TupleAssignment { .. } => "assign-tuple",
        Stat::Assign { .. } => "assign",
        Stat::Expression { .. } => "expression",
    }
}

// What has no expressions in it.
fn show_leaf<R: Print>(rt: &R, expression: &Exp) -> io::Result<()> {
    match expression {
        Exp::Integer { value, .. } => print!(rt; " {value}"),
        Exp::Text { value, .. } => print!(rt; " {:?}", value.as_str()),
        Exp::Location { path, .. } => match path {
            Some(path) => print!(rt; " {:?}", path.as_str()),
            None => print!(rt; " none"),
        },
        Exp::Truth { value, .. } => print!(rt; " {value}"),
        Exp::Fragment { fragment, .. } => show_fragment(rt, fragment.get()),
        Exp::TypeName { name, .. } | Exp::Variable { name, .. } => show_name(rt, name),
        Exp::StartSort {
            start_place,
            sort,
            ..
        } => {
            print!(rt; " start@{}", start_place.column)?;
            show_name(rt, sort)
        }
        _ => Ok(()),
    }
}

fn show_operators<R: Print, O: Debug>(rt: &R, rest: &[(O, Shared<Exp>)]) -> io::Result<()> {
    let mut separator = "";
    print!(rt; " [")?;
    for (operator, _) in rest {
        print!(rt; "{separator}{operator:?}")?;
        separator = ", ";
    }
    print!(rt; "]")
}

// The operators of a chain or a comparison, the strategy of a visit, and the texts of an interpolation.
fn show_marks<R: Print>(rt: &R, expression: &Exp) -> io::Result<()> {
    match expression {
        Exp::Compared { comparison, .. } => print!(rt; " {comparison:?}"),
        Exp::Sum { rest, .. } => show_operators(rt, rest.as_slice()),
        Exp::Product { rest, .. } => show_operators(rt, rest.as_slice()),
        Exp::Visit { strategy, .. } => print!(rt; " {strategy:?}"),
        Exp::Interpolation { first, rest, .. } => {
            print!(rt; " {:?}", first.as_str())?;
            for (_, text) in rest.as_slice() {
                print!(rt; " {:?}", text.as_str())?;
            }
            Ok(())
        }
        _ => Ok(()),
    }
}

#[cycle(show)]
fn show_container<R: Print>(rt: &R, expression: &Exp) -> io::Result<()> {
    match expression {
        Exp::Reducer {
            start,
            step,
            conditions,
            ..
        } => {
            show_expression(rt, start.get())?;
            show_expression(rt, step.get())?;
            show_expressions(rt, conditions.as_slice())
        }
        Exp::Map { entries, .. } => {
            for (key, _) in entries.as_slice() {
                show_expression(rt, key.get())?;
            }
            print!(rt; " :")?;
            for (_, value) in entries.as_slice() {
                show_expression(rt, value.get())?;
            }
            Ok(())
        }
        Exp::MapComprehension {
            key,
            value,
            conditions,
            ..
        } => {
            show_expression(rt, key.get())?;
            show_expression(rt, value.get())?;
            print!(rt; " |")?;
            show_expressions(rt, conditions.as_slice())
        }
        Exp::Range {
            first,
            second,
            end,
            ..
        } => {
            show_expression(rt, first.get())?;
            show_option(rt, second)?;
            show_expression(rt, end.get())
        }
        Exp::ListComprehension {
            elements,
            conditions,
            ..
        }
        | Exp::SetComprehension {
            elements,
            conditions,
            ..
        } => {
            show_expressions(rt, elements.as_slice())?;
            print!(rt; " |")?;
            show_expressions(rt, conditions.as_slice())
        }
        Exp::Call {
            name,
            arguments,
            ..
        } => {
            show_name(rt, name)?;
            show_expressions(rt, arguments.as_slice())
        }
        Exp::Loop { statement, .. } => show_statement(rt, statement.get()),
        Exp::Visit {
            subject,
            cases,
            subject_type,
            ..
        } => {
            show_expression(rt, subject.get())?;
            show_type(rt, subject_type.get())?;
            show_cases(rt, cases.as_slice())
        }
        _ => show_leaf(rt, expression),
    }
}

#[cycle(show)]
pub(crate) fn show_expression<R: Print>(rt: &R, expression: &Exp) -> io::Result<()> {
    begin(rt, word(expression), expression.place())?;
    show_marks(rt, expression)?;
    match expression {
        Exp::Conditional {
            condition,
            then,
            otherwise,
            ..
        } => {
            show_expression(rt, condition.get())?;
            show_expression(rt, then.get())?;
            show_expression(rt, otherwise.get())?;
        }
        Exp::Fallback {
            value,
            otherwise,
            ..
        } => {
            show_expression(rt, value.get())?;
            show_expression(rt, otherwise.get())?;
        }
        Exp::Implication { left, right, .. }
        | Exp::Equivalence { left, right, .. }
        | Exp::Equal { left, right, .. }
        | Exp::NotEqual { left, right, .. }
        | Exp::Compared { left, right, .. } => {
            show_expression(rt, left.get())?;
            show_expression(rt, right.get())?;
        }
        Exp::Disjunction { parts, .. }
        | Exp::Conjunction { parts, .. }
        | Exp::Composition { parts, .. }
        | Exp::Tuple { parts, .. }
        | Exp::List {
            elements: parts,
            ..
        }
        | Exp::Set {
            elements: parts,
            ..
        } => show_expressions(rt, parts.as_slice())?,
        Exp::Sum { first, rest, .. } => {
            show_expression(rt, first.get())?;
            for (_, part) in rest.as_slice() {
                show_expression(rt, part.get())?;
            }
        }
        Exp::Product { first, rest, .. } => {
            show_expression(rt, first.get())?;
            for (_, part) in rest.as_slice() {
                show_expression(rt, part.get())?;
            }
        }
        Exp::Interpolation { rest, .. } => {
            for (value, _) in rest.as_slice() {
                show_expression(rt, value.get())?;
            }
        }
        Exp::Match { pattern, value, .. }
        | Exp::NoMatch { pattern, value, .. }
        | Exp::Enumeration {
            pattern,
            collection: value,
            ..
        } => {
            show_pattern(rt, pattern.get())?;
            show_expression(rt, value.get())?;
        }
        Exp::Is { value, name, .. } => {
            show_expression(rt, value.get())?;
            show_name(rt, name)?;
        }
        Exp::Not { value, .. }
        | Exp::Negative { value, .. }
        | Exp::Parenthesized { value, .. }
        | Exp::Splice { value, .. } => show_expression(rt, value.get())?,
        Exp::Suffixed {
            value,
            suffixes,
            ..
        } => {
            show_expression(rt, value.get())?;
            show_suffixes(rt, suffixes.as_slice())?;
        }
        _ => show_container(rt, expression)?,
    }
    finish(rt)
}

#[cycle(show)]
pub(crate) fn show_expressions<R: Print>(rt: &R, expressions: &[Shared<Exp>]) -> io::Result<()> {
    for expression in expressions {
        show_expression(rt, expression.get())?;
    }
    Ok(())
}

#[cycle(show)]
fn show_option<R: Print>(rt: &R, expression: &Option<Shared<Exp>>) -> io::Result<()> {
    match expression {
        Some(expression) => show_expression(rt, expression.get()),
        None => print!(rt; " none"),
    }
}

#[cycle(show)]
fn show_suffixes<R: Print>(rt: &R, suffixes: &[Suffix]) -> io::Result<()> {
    for suffix in suffixes {
        match suffix {
            Suffix::Subscript { place, index } => {
                begin(rt, "subscript", *place)?;
                show_expression(rt, index.get())?;
            }
            Suffix::Slice { place, from, to } => {
                begin(rt, "slice", *place)?;
                show_option(rt, from)?;
                show_option(rt, to)?;
            }
            Suffix::Field { place, name } => {
                begin(rt, "field", *place)?;
                show_name(rt, name)?;
            }
            Suffix::TransitiveClosure { place } => begin(rt, "closure+", *place)?,
            Suffix::ReflexiveClosure { place } => begin(rt, "closure*", *place)?,
        }
        finish(rt)?;
    }
    Ok(())
}

#[cycle(show)]
fn show_cases<R: Print>(rt: &R, cases: &[Shared<Case>]) -> io::Result<()> {
    for case in cases {
        match case.get() {
            Case::Default { place, body } => {
                begin(rt, "default", *place)?;
                show_statements(rt, body.as_slice())?;
            }
            Case::Replacement {
                place,
                pattern,
                value,
                conditions,
            } => {
                begin(rt, "case=>", *place)?;
                show_pattern(rt, pattern.get())?;
                show_expression(rt, value.get())?;
                print!(rt; " when")?;
                show_expressions(rt, conditions.as_slice())?;
            }
            Case::Statements {
                place,
                pattern,
                body,
            } => {
                begin(rt, "case", *place)?;
                show_pattern(rt, pattern.get())?;
                show_statements(rt, body.as_slice())?;
            }
        }
        finish(rt)?;
    }
    Ok(())
}

#[cycle(show)]
fn show_handlers<R: Print>(rt: &R, handlers: &[Shared<Handler>]) -> io::Result<()> {
    for handler in handlers {
        match handler.get() {
            Handler::Any { place, body } => {
                begin(rt, "catch", *place)?;
                show_statement(rt, body.get())?;
            }
            Handler::Matching {
                place,
                pattern,
                body,
            } => {
                begin(rt, "catch", *place)?;
                show_pattern(rt, pattern.get())?;
                show_statement(rt, body.get())?;
            }
        }
        finish(rt)?;
    }
    Ok(())
}

#[cycle(show)]
fn show_assignment<R: Print>(rt: &R, statement: &Stat) -> io::Result<()> {
    match statement {
        Stat::Declaration {
            ty,
            name,
            value,
            ..
        } => {
            show_type(rt, ty.get())?;
            show_name(rt, name)?;
            show_expression(rt, value.get())
        }
        Stat::TupleAssignment { names, value, .. } => {
            show_names(rt, names.as_slice())?;
            show_expression(rt, value.get())
        }
        Stat::Assign {
            target,
            path,
            assignment,
            value,
            ..
        } => {
            show_name(rt, target)?;
            show_suffixes(rt, path.as_slice())?;
            print!(rt; " {assignment:?}")?;
            show_expression(rt, value.get())
        }
        _ => Ok(()),
    }
}

#[cycle(show)]
pub(crate) fn show_statement<R: Print>(rt: &R, statement: &Stat) -> io::Result<()> {
    begin(rt, statement_word(statement), statement.place())?;
    match statement {
        Stat::Block { body, .. } => show_statements(rt, body.as_slice())?,
        Stat::If {
            conditions,
            then,
            otherwise,
            ..
        } => {
            show_expressions(rt, conditions.as_slice())?;
            show_statement(rt, then.get())?;
            if let Some(otherwise) = otherwise {
                show_statement(rt, otherwise.get())?;
            }
        }
        Stat::Switch { subject, cases, .. } => {
            show_expression(rt, subject.get())?;
            show_cases(rt, cases.as_slice())?;
        }
        Stat::For {
            conditions,
            body,
            ..
        }
        | Stat::While {
            conditions,
            body,
            ..
        }
        | Stat::Do {
            conditions,
            body,
            ..
        } => {
            show_expressions(rt, conditions.as_slice())?;
            show_statement(rt, body.get())?;
        }
        Stat::Solve {
            variables,
            body,
            ..
        } => {
            show_names(rt, variables.as_slice())?;
            show_statement(rt, body.get())?;
        }
        Stat::Try {
            body,
            handlers,
            finally,
            ..
        } => {
            show_statement(rt, body.get())?;
            show_handlers(rt, handlers.as_slice())?;
            if let Some(finally) = finally {
                print!(rt; " finally")?;
                show_statement(rt, finally.get())?;
            }
        }
        Stat::ReturnValue { value, .. }
        | Stat::Insert { value, .. }
        | Stat::Append { value, .. }
        | Stat::Throw { value, .. }
        | Stat::Expression { value, .. } => show_expression(rt, value.get())?,
        _ => show_assignment(rt, statement)?,
    }
    finish(rt)
}

#[cycle(show)]
pub(crate) fn show_statements<R: Print>(rt: &R, statements: &[Shared<Stat>]) -> io::Result<()> {
    for statement in statements {
        show_statement(rt, statement.get())?;
    }
    Ok(())
}
