//! Sets, as the rising lists of their elements.
ghost use Rattle.std.specs.Prelude.{◌≡◌, ◌++◌, ◌∷◌, [], not, filter, IfOk};
ghost use Rattle.rl_value.specs.Plain.{set, plains_of};
ghost use Rattle.rl_value.specs.Laws.{plain_eq};
ghost use Rattle.rl_value.specs.Opened.{IsInOrder};
ghost use Rattle.rl_exception.specs.Answer.{fitting, Answers};
ghost use Rattle.rl_operators.specs.Sets.{set_of, is_member, common, without_all, is_subset, is_proper_subset};

use crate::lists::{joined, with_first, with_last};
use rl_exception::{OpEnd, fitted_set};
use rl_value::Value;
use std::alloc::{AllocError, Global};

/// Whether a value is an element, by halving.
pub(crate) fn has(elements: &[Value], x: &Value) -> bool
    requires { IsInOrder (set (plains_of elements.now)) }
    ensures { result ≡ is_member elements.now x.now }
{
    elements.binary_search(x).is_ok()
}

pub(crate) fn unite(alloc: Global, a: &[Value], b: &[Value]) -> Result<Value, OpEnd>
    ensures { Answers (fitting (set_of (a.now ++ b.now))) result }
{
    match joined(alloc, a, b) {
        Ok(values) => fitted_set(alloc, values),
        Err(end) => Err(OpEnd::from(end)),
    }
}

/// The set with one more element.
pub(crate) fn put_in(alloc: Global, elements: &[Value], x: &Value) -> Result<Value, OpEnd>
    ensures { Answers (fitting (set_of (elements.now ++ x.now ∷ []))) result }
{
    match with_last(alloc, elements, x) {
        Ok(values) => fitted_set(alloc, values),
        Err(end) => Err(OpEnd::from(end)),
    }
}

/// The same, where the element is the left operand.
pub(crate) fn put_into(alloc: Global, x: &Value, elements: &[Value]) -> Result<Value, OpEnd>
    ensures { Answers (fitting (set_of (x.now ∷ elements.now))) result }
{
    match with_first(alloc, x, elements) {
        Ok(values) => fitted_set(alloc, values),
        Err(end) => Err(OpEnd::from(end)),
    }
}

fn common_elements(alloc: Global, a: &[Value], b: &[Value]) -> Result<Vec<Value>, AllocError>
    requires { IsInOrder (set (plains_of b.now)) }
    ensures { IfOk result (λ v. v.items ≡ common a.now b.now) }
{
    let mut elements = Vec::new(alloc);
    for x in a {
        if has(b, x) {
            elements.push(x.share()?)?;
        }
    }
    Ok(elements)
}

pub(crate) fn intersect_sets(alloc: Global, a: &[Value], b: &[Value]) -> Result<Value, OpEnd>
    requires { IsInOrder (set (plains_of b.now)) }
    ensures { Answers (fitting (set_of (common a.now b.now))) result }
{
    match common_elements(alloc, a, b) {
        Ok(elements) => fitted_set(alloc, elements),
        Err(end) => Err(OpEnd::from(end)),
    }
}

fn elements_without(alloc: Global, a: &[Value], b: &[Value]) -> Result<Vec<Value>, AllocError>
    requires { IsInOrder (set (plains_of b.now)) }
    ensures { IfOk result (λ v. v.items ≡ without_all a.now b.now) }
{
    let mut elements = Vec::new(alloc);
    for x in a {
        if !has(b, x) {
            elements.push(x.share()?)?;
        }
    }
    Ok(elements)
}

pub(crate) fn subtract_sets(alloc: Global, a: &[Value], b: &[Value]) -> Result<Value, OpEnd>
    requires { IsInOrder (set (plains_of b.now)) }
    ensures { Answers (fitting (set_of (without_all a.now b.now))) result }
{
    match elements_without(alloc, a, b) {
        Ok(elements) => fitted_set(alloc, elements),
        Err(end) => Err(OpEnd::from(end)),
    }
}

fn elements_but(alloc: Global, a: &[Value], x: &Value) -> Result<Vec<Value>, AllocError>
    ensures { IfOk result (λ v. v.items ≡ filter (λ y. not (plain_eq y x.now)) a.now) }
{
    let mut elements = Vec::new(alloc);
    for y in a {
        if y != x {
            elements.push(y.share()?)?;
        }
    }
    Ok(elements)
}

/// The set without an element.
pub(crate) fn take_from(alloc: Global, a: &[Value], x: &Value) -> Result<Value, OpEnd>
    ensures { Answers (fitting (set_of (filter (λ y. not (plain_eq y x.now)) a.now))) result }
{
    match elements_but(alloc, a, x) {
        Ok(elements) => fitted_set(alloc, elements),
        Err(end) => Err(OpEnd::from(end)),
    }
}

pub(crate) fn is_subset(a: &[Value], b: &[Value]) -> bool
    requires { IsInOrder (set (plains_of b.now)) }
    ensures { result ≡ is_subset a.now b.now }
{
    for x in a {
        if !has(b, x) {
            return false;
        }
    }
    true
}

pub(crate) fn is_proper_subset(a: &[Value], b: &[Value]) -> bool
    requires a { IsInOrder (set (plains_of a.now)) }
    requires b { IsInOrder (set (plains_of b.now)) }
    ensures { result ≡ is_proper_subset a.now b.now }
{
    is_subset(a, b) && !is_subset(b, a)
}
