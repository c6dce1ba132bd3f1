//! Patterns and fragments.

use crate::names::{begin, finish, show_name, show_piece, show_variable};
use crate::types::show_type;
use rl_base::Shared;
use rl_syntax::{Concrete, Pattern, PatternElement};
use std::io;

pub(crate) fn show_fragment<R: Print>(rt: &R, fragment: &Concrete) -> io::Result<()> {
    begin(rt, "fragment", fragment.place)?;
    print!(rt;
        " {}@{} {}",
        fragment.sort.as_str(),
        fragment.sort_place.column,
        fragment.text_place.column
    )?;
    for piece in fragment.pieces.as_slice() {
        show_piece(rt, piece)?;
    }
    finish(rt)
}

fn word(pattern: &Pattern) -> &str {
    match pattern {
        Pattern::TypedBinding { .. } => "typed-binding",
        Pattern::Binding { .. } => "binding",
        Pattern::Negation { .. } => "not",
        Pattern::Descendant { .. } => "deep",
        Pattern::Fragment { .. } => "concrete",
        Pattern::Constructor { .. } => "constructor",
        Pattern::TypedVariable { .. } => "typed-variable",
        Pattern::TypedWildcard { .. } => "typed-wildcard",
        Pattern::List { .. } => "list",
        Pattern::Set { .. } => "set",
        Pattern::Tuple { .. } => "tuple",
        Pattern::Integer { .. } => "integer",
        Pattern::Text { .. } => "text",
        Pattern::Location { .. } => "location",
        Pattern::Truth { .. } => "truth",
        Pattern::Wildcard { .. } => "_",
        Pattern::Variable { .. } => "variable",
    }
}

// What a literal or a variable is.
fn show_leaf<R: Print>(rt: &R, pattern: &Pattern) -> io::Result<()> {
    match pattern {
        Pattern::Integer { value, .. } => print!(rt; " {value}"),
        Pattern::Text { value, .. } => print!(rt; " {:?}", value.as_str()),
        Pattern::Location { path, .. } => match path {
            Some(path) => print!(rt; " {:?}", path.as_str()),
            None => print!(rt; " none"),
        },
        Pattern::Truth { value, .. } => print!(rt; " {value}"),
        Pattern::Variable { variable, .. } => show_variable(rt, variable),
        Pattern::Fragment { fragment, .. } => show_fragment(rt, fragment.get()),
        _ => Ok(()),
    }
}

#[cycle(show_pattern)]
pub(crate) fn show_pattern<R: Print>(rt: &R, pattern: &Pattern) -> io::Result<()> {
    begin(rt, word(pattern), pattern.place())?;
    match pattern {
        Pattern::TypedBinding {
            ty,
            variable,
            pattern,
            ..
        } => {
            show_type(rt, ty.get())?;
            show_variable(rt, variable)?;
            show_pattern(rt, pattern.get())?;
        }
        Pattern::Binding {
            variable,
            pattern,
            ..
        } => {
            show_variable(rt, variable)?;
            show_pattern(rt, pattern.get())?;
        }
        Pattern::Negation { pattern, .. } | Pattern::Descendant { pattern, .. } => {
            show_pattern(rt, pattern.get())?;
        }
        Pattern::Constructor { name, parts, .. } => {
            show_name(rt, name)?;
            show_patterns(rt, parts.as_slice())?;
        }
        Pattern::TypedVariable { ty, variable, .. } => {
            show_type(rt, ty.get())?;
            show_variable(rt, variable)?;
        }
        Pattern::TypedWildcard { ty, .. } => show_type(rt, ty.get())?,
        Pattern::List { elements, .. } | Pattern::Set { elements, .. } => {
            show_elements(rt, elements.as_slice())?;
        }
        Pattern::Tuple { parts, .. } => show_patterns(rt, parts.as_slice())?,
        _ => show_leaf(rt, pattern)?,
    }
    finish(rt)
}

#[cycle(show_pattern)]
pub(crate) fn show_patterns<R: Print>(rt: &R, patterns: &[Shared<Pattern>]) -> io::Result<()> {
    for pattern in patterns {
        show_pattern(rt, pattern.get())?;
    }
    Ok(())
}

#[cycle(show_pattern)]
fn show_element<R: Print>(rt: &R, element: &PatternElement) -> io::Result<()> {
    match element {
        PatternElement::AnyRest { place } => {
            begin(rt, "*_", *place)?;
            finish(rt)
        }
        PatternElement::TypedRest {
            place,
            ty,
            variable,
        } => {
            begin(rt, "*T", *place)?;
            show_type(rt, ty.get())?;
            show_variable(rt, variable)?;
            finish(rt)
        }
        PatternElement::Rest { place, variable } => {
            begin(rt, "*", *place)?;
            show_variable(rt, variable)?;
            finish(rt)
        }
        PatternElement::Single(pattern) => show_pattern(rt, pattern.get()),
    }
}

#[cycle(show_pattern)]
fn show_elements<R: Print>(rt: &R, elements: &[PatternElement]) -> io::Result<()> {
    for element in elements {
        show_element(rt, element)?;
    }
    Ok(())
}
