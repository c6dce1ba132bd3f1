//! The variables that patterns set.

ghost use Rattle.std.specs.Prelude.{◌≡◌, ◌++◌, IfOk, OnOk};
ghost use Rattle.rl_syntax.specs.Bound.{bound, bound_in_element, set_by, set_in_holes};

use crate::fragment::Piece;
use crate::identifier::PatternVariable;
use crate::pattern::{Pattern, PatternElement};
use std::alloc::{AllocError, Global};

// Adds the variable, unless it is a test.
fn add_variable(variable: &PatternVariable, numbers: &mut Vec<usize>) -> Result<(), AllocError>
    ensures { OnOk result (numbers.new.items ≡ numbers.old.items ++ set_by variable.now) }
{
    if !variable.is_test {
        numbers.push(variable.number)?;
    }
    Ok(())
}

// Adds the variables of the holes.
fn add_holes(pieces: &[Piece], numbers: &mut Vec<usize>) -> Result<(), AllocError>
    ensures { OnOk result (numbers.new.items ≡ numbers.old.items ++ set_in_holes pieces.now) }
{
    for piece in pieces {
        match piece {
            Piece::Text(_) => {}
            Piece::Hole { variable, .. } => add_variable(variable, numbers)?,
        }
    }
    Ok(())
}

// Adds the variables that the element sets.
#[cycle(bound)]
fn add_element(element: &PatternElement, numbers: &mut Vec<usize>) -> Result<(), AllocError>
    ensures { OnOk result (numbers.new.items ≡ numbers.old.items ++ bound_in_element element.now) }
{
    match element {
        PatternElement::AnyRest { .. } => Ok(()),
        PatternElement::TypedRest { variable, .. } | PatternElement::Rest { variable, .. } => {
            add_variable(variable, numbers)
        }
        PatternElement::Single(pattern) => add_bound(pattern.get(), numbers),
    }
}

// Adds the variables that the pattern sets.
#[cycle(bound)]
fn add_bound(pattern: &Pattern, numbers: &mut Vec<usize>) -> Result<(), AllocError>
    ensures { OnOk result (numbers.new.items ≡ numbers.old.items ++ bound pattern.now) }
{
    match pattern {
        Pattern::TypedBinding {
            variable,
            pattern,
            ..
        }
        | Pattern::Binding {
            variable,
            pattern,
            ..
        } => {
            add_variable(variable, numbers)?;
            add_bound(pattern.get(), numbers)
        }
        Pattern::Descendant { pattern, .. } => add_bound(pattern.get(), numbers),
        Pattern::Fragment { fragment, .. } => add_holes(fragment.get().pieces.as_slice(), numbers),
        Pattern::TypedVariable { variable, .. } | Pattern::Variable { variable, .. } =>
            add_variable(variable, numbers),
        Pattern::Constructor { parts, .. } | Pattern::Tuple { parts, .. } => {
            for part in parts.as_slice() {
                add_bound(part.get(), numbers)?;
            }
            Ok(())
        }
        Pattern::List { elements, .. } | Pattern::Set { elements, .. } => {
            for element in elements.as_slice() {
                add_element(element, numbers)?;
            }
            Ok(())
        }
        Pattern::Negation { .. }
        | Pattern::TypedWildcard { .. }
        | Pattern::Integer { .. }
        | Pattern::Text { .. }
        | Pattern::Location { .. }
        | Pattern::Truth { .. }
        | Pattern::Wildcard { .. } => Ok(()),
    }
}

/// The numbers of the variables that the pattern sets, in text order. Its tests are not among them, nor is what stands in a
/// negation.
pub fn bound_variables(alloc: Global, pattern: &Pattern) -> Result<Vec<usize>, AllocError>
    ensures { IfOk result (λ numbers. numbers.items ≡ bound pattern.now) }
{
    let mut numbers = Vec::new(alloc);
    add_bound(pattern, &mut numbers)?;
    Ok(numbers)
}
