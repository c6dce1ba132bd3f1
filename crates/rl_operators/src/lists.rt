//! Lists and tuples.
ghost use Rattle.std.specs.Prelude.{◌≡◌, ◌++◌, ◌∷◌, [], IfOk, OnOk, position};
ghost use Rattle.rl_value.specs.Laws.{plain_eq};
ghost use Rattle.rl_value.specs.Plain.{Plain, list, tuple, plains_of};
ghost use Rattle.rl_exception.specs.Answer.{fitting, Answers};
ghost use Rattle.rl_operators.specs.Lists.{without_first, without_each};
ghost use Rattle.rl_operators.specs.Sets.{is_member};

use rl_exception::{OpEnd, fitted_list, fitted_tuple};
use rl_value::Value;
use std::alloc::{AllocError, Global};

/// The values of both, shared.
pub(crate) fn joined(
    alloc: Global,
    first: &[Value],
    second: &[Value],
) -> Result<Vec<Value>, AllocError>
    ensures { IfOk result (λ v. v.items ≡ first.now ++ second.now) }
{
    let mut values = Vec::new(alloc);
    share_into(&mut values, first)?;
    share_into(&mut values, second)?;
    Ok(values)
}

/// The values with one more at the end.
pub(crate) fn with_last(
    alloc: Global,
    values: &[Value],
    last: &Value,
) -> Result<Vec<Value>, AllocError>
    ensures { IfOk result (λ v. v.items ≡ values.now ++ last.now ∷ []) }
{
    let mut all = Vec::new(alloc);
    share_into(&mut all, values)?;
    all.push(last.share()?)?;
    Ok(all)
}

/// The values with one more at the front.
pub(crate) fn with_first(
    alloc: Global,
    first: &Value,
    values: &[Value],
) -> Result<Vec<Value>, AllocError>
    ensures { IfOk result (λ v. v.items ≡ first.now ∷ values.now) }
{
    let mut all = Vec::new(alloc);
    all.push(first.share()?)?;
    share_into(&mut all, values)?;
    Ok(all)
}

fn share_into(shared: &mut Vec<Value>, values: &[Value]) -> Result<(), AllocError>
    ensures { OnOk result (shared.new.items ≡ shared.old.items ++ values.now) }
{
    for value in values {
        shared.push(value.share()?)?;
    }
    Ok(())
}

pub(crate) fn join_lists(alloc: Global, a: &[Value], b: &[Value]) -> Result<Value, OpEnd>
    ensures { Answers (fitting (list (plains_of (a.now ++ b.now)))) result }
{
    match joined(alloc, a, b) {
        Ok(values) => fitted_list(alloc, values),
        Err(end) => Err(OpEnd::from(end)),
    }
}

pub(crate) fn join_tuples(alloc: Global, a: &[Value], b: &[Value]) -> Result<Value, OpEnd>
    ensures { Answers (fitting (tuple (plains_of (a.now ++ b.now)))) result }
{
    match joined(alloc, a, b) {
        Ok(values) => fitted_tuple(alloc, values),
        Err(end) => Err(OpEnd::from(end)),
    }
}

pub(crate) fn append(alloc: Global, values: &[Value], last: &Value) -> Result<Value, OpEnd>
    ensures { Answers (fitting (list (plains_of (values.now ++ last.now ∷ [])))) result }
{
    match with_last(alloc, values, last) {
        Ok(values) => fitted_list(alloc, values),
        Err(end) => Err(OpEnd::from(end)),
    }
}

pub(crate) fn prepend(alloc: Global, first: &Value, values: &[Value]) -> Result<Value, OpEnd>
    ensures { Answers (fitting (list (plains_of (first.now ∷ values.now)))) result }
{
    match with_first(alloc, first, values) {
        Ok(values) => fitted_list(alloc, values),
        Err(end) => Err(OpEnd::from(end)),
    }
}

/// Whether a value is an element, from the front.
pub(crate) fn has_element(values: &[Value], x: &Value) -> bool
    ensures { result ≡ is_member values.now x.now }
{
    values.contains(x)
}

// The first place of a value.
fn place_of(values: &[Value], x: &Value) -> Option<usize>
    ensures { result ≡ position (λ y. plain_eq y x.now) values.now }
{
    values.iter().position(|value| value == x)
}

// Takes out the first place of a value.
fn take_out(values: &mut Vec<Value>, x: &Value)
    ensures { values.new.items ≡ without_first x.now values.old.items }
{
    match place_of(values, x) {
        Some(place) => drop(values.remove(place)),
        None => {}
    }
}

/// The list without the first place of a value.
pub(crate) fn remove_first(alloc: Global, values: &[Value], x: &Value) -> Result<Value, OpEnd>
    ensures { Answers (fitting (list (plains_of (without_first x.now values.now)))) result }
{
    match shared(alloc, values) {
        Ok(mut left) => {
            take_out(&mut left, x);
            fitted_list(alloc, left)
        }
        Err(end) => Err(OpEnd::from(end)),
    }
}

fn shared(alloc: Global, values: &[Value]) -> Result<Vec<Value>, AllocError>
    ensures { IfOk result (λ v. v.items ≡ values.now) }
{
    let mut shared = Vec::new(alloc);
    share_into(&mut shared, values)?;
    Ok(shared)
}

fn take_out_each(values: &mut Vec<Value>, xs: &[Value])
    ensures { values.new.items ≡ without_each xs.now values.old.items }
{
    for x in xs {
        take_out(values, x);
    }
}

/// The list without the first place of each of these, in turn.
pub(crate) fn remove_each(alloc: Global, values: &[Value], xs: &[Value]) -> Result<Value, OpEnd>
    ensures { Answers (fitting (list (plains_of (without_each xs.now values.now)))) result }
{
    match shared(alloc, values) {
        Ok(mut left) => {
            take_out_each(&mut left, xs);
            fitted_list(alloc, left)
        }
        Err(end) => Err(OpEnd::from(end)),
    }
}
