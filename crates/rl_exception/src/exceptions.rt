//! Each function answers that its exception is thrown, or that there was no memory for it. An exception
//! that passes a limit of values is replaced by `TooLarge()`.
ghost use Rattle.std.specs.Prelude.{◌≡◌, [], ◌∷◌, IfOk};
ghost use Rattle.rl_value.specs.Plain.{node, int, text, plains_of};
ghost use Rattle.rl_exception.specs.Answer.{Throws, throwing, Ends, Answers};
ghost use Rattle.rl_exception.specs.Exceptions.{arithmetic_exception, out_of_range, divided_by_zero, call_failed, stack_overflow, too_large, visit_type, wrong_kind, no_return, uninitialized_variable, index_out_of_bounds, no_such_key, no_such_field, empty_list, empty_set, illegal_argument, path_not_found, io_exception, parse_error, ambiguity};

use crate::op_end::OpEnd;
use rl_value::{BuildEnd, Value, int, node, text};
use std::alloc::{AllocError, Global};

/// `ArithmeticException(message)`
pub fn arithmetic_exception(alloc: Global, message: &str) -> OpEnd
    ensures { Ends (throwing (arithmetic_exception message.now)) result }
{
    thrown_with_text(alloc, "ArithmeticException", message)
}

/// `ArithmeticException("integer out of range")`
pub fn out_of_range(alloc: Global) -> OpEnd
    ensures { Ends (Throws out_of_range) result }
{
    arithmetic_exception(alloc, "integer out of range")
}

/// `ArithmeticException("divided by zero")`
pub fn divided_by_zero(alloc: Global) -> OpEnd
    ensures { Ends (Throws divided_by_zero) result }
{
    arithmetic_exception(alloc, "divided by zero")
}

/// `CallFailed(arguments)`, of the list of the arguments.
pub fn call_failed(alloc: Global, arguments: &Value) -> OpEnd
    ensures { Ends (throwing (call_failed arguments.now)) result }
{
    thrown_with(alloc, "CallFailed", arguments)
}

/// `StackOverflow()`
pub fn stack_overflow(alloc: Global) -> OpEnd
    ensures { Ends (Throws stack_overflow) result }
{
    thrown(alloc, "StackOverflow")
}

/// `TooLarge()`
pub fn too_large(alloc: Global) -> OpEnd
    ensures { Ends (Throws too_large) result }
{
    match node(alloc, "TooLarge", Vec::new(alloc)) {
        Ok(exception) => OpEnd::Throw(exception),
        Err(_) => OpEnd::OutOfMemory,
    }
}

/// `VisitType()`
pub fn visit_type(alloc: Global) -> OpEnd
    ensures { Ends (Throws visit_type) result }
{
    thrown(alloc, "VisitType")
}

/// `WrongKind()`
pub fn wrong_kind(alloc: Global) -> OpEnd
    ensures { Ends (Throws wrong_kind) result }
{
    thrown(alloc, "WrongKind")
}

/// `NoReturn()`
pub fn no_return(alloc: Global) -> OpEnd
    ensures { Ends (Throws no_return) result }
{
    thrown(alloc, "NoReturn")
}

/// `UninitializedVariable(name)`
pub fn uninitialized_variable(alloc: Global, name: &str) -> OpEnd
    ensures { Ends (throwing (uninitialized_variable name.now)) result }
{
    thrown_with_text(alloc, "UninitializedVariable", name)
}

/// `IndexOutOfBounds(index)`
pub fn index_out_of_bounds(alloc: Global, index: i128) -> OpEnd
    ensures { Ends (Throws (index_out_of_bounds index)) result }
{
    match one_number(alloc, index) {
        Ok(fields) => thrown_node(alloc, "IndexOutOfBounds", fields),
        Err(end) => OpEnd::from(end),
    }
}

/// `NoSuchKey(key)`
pub fn no_such_key(alloc: Global, key: &Value) -> OpEnd
    ensures { Ends (throwing (no_such_key key.now)) result }
{
    thrown_with(alloc, "NoSuchKey", key)
}

/// `NoSuchField(name)`
pub fn no_such_field(alloc: Global, name: &str) -> OpEnd
    ensures { Ends (throwing (no_such_field name.now)) result }
{
    thrown_with_text(alloc, "NoSuchField", name)
}

/// `EmptyList()`
pub fn empty_list(alloc: Global) -> OpEnd
    ensures { Ends (Throws empty_list) result }
{
    thrown(alloc, "EmptyList")
}

/// `EmptySet()`
pub fn empty_set(alloc: Global) -> OpEnd
    ensures { Ends (Throws empty_set) result }
{
    thrown(alloc, "EmptySet")
}

/// `IllegalArgument(argument)`
pub fn illegal_argument(alloc: Global, argument: &Value) -> OpEnd
    ensures { Ends (throwing (illegal_argument argument.now)) result }
{
    thrown_with(alloc, "IllegalArgument", argument)
}

/// `PathNotFound(place)`, of a location.
pub fn path_not_found(alloc: Global, place: &Value) -> OpEnd
    ensures { Ends (throwing (path_not_found place.now)) result }
{
    thrown_with(alloc, "PathNotFound", place)
}

/// `IO(message)`
pub fn io_exception(alloc: Global, message: &str) -> OpEnd
    ensures { Ends (throwing (io_exception message.now)) result }
{
    thrown_with_text(alloc, "IO", message)
}

/// `ParseError(place)`, of a location.
pub fn parse_error(alloc: Global, place: &Value) -> OpEnd
    ensures { Ends (throwing (parse_error place.now)) result }
{
    thrown_with(alloc, "ParseError", place)
}

/// `Ambiguity(place, sort)`, of a location and the name of a sort.
pub fn ambiguity(alloc: Global, place: &Value, sort: &str) -> OpEnd
    ensures { Ends (throwing (ambiguity place.now sort.now)) result }
{
    match text(alloc, sort) {
        Ok(sort) => thrown_with_two(alloc, "Ambiguity", place, &sort),
        Err(BuildEnd::TooLarge) => too_large(alloc),
        Err(BuildEnd::OutOfMemory) => OpEnd::OutOfMemory,
    }
}

fn thrown(alloc: Global, name: &str) -> OpEnd
    ensures { Ends (Throws (node name.now (plains_of []))) result }
{
    thrown_node(alloc, name, Vec::new(alloc))
}

fn thrown_with(alloc: Global, name: &str, field: &Value) -> OpEnd
    ensures { Ends (throwing (node name.now (plains_of (field.now ∷ [])))) result }
{
    match one_field(alloc, field) {
        Ok(fields) => thrown_node(alloc, name, fields),
        Err(end) => OpEnd::from(end),
    }
}

fn thrown_with_text(alloc: Global, name: &str, message: &str) -> OpEnd
    ensures { Ends (throwing (node name.now (plains_of (text message.now ∷ [])))) result }
{
    match text(alloc, message) {
        Ok(field) => thrown_with(alloc, name, &field),
        Err(BuildEnd::TooLarge) => too_large(alloc),
        Err(BuildEnd::OutOfMemory) => OpEnd::OutOfMemory,
    }
}

// The exception with this name and these fields.
fn thrown_node(alloc: Global, name: &str, fields: Vec<Value>) -> OpEnd
    ensures { Ends (throwing (node name.now (plains_of fields.items))) result }
{
    match node(alloc, name, fields) {
        Ok(exception) => OpEnd::Throw(exception),
        Err(BuildEnd::TooLarge) => too_large(alloc),
        Err(BuildEnd::OutOfMemory) => OpEnd::OutOfMemory,
    }
}

fn one_field(alloc: Global, field: &Value) -> Result<Vec<Value>, AllocError>
    ensures { IfOk result (λ v. v.items ≡ field.now ∷ []) }
{
    let mut fields = Vec::with_capacity(alloc, 1)?;
    fields.push(field.share()?)?;
    Ok(fields)
}

fn thrown_with_two(alloc: Global, name: &str, first: &Value, second: &Value) -> OpEnd
    ensures { Ends (throwing (node name.now (plains_of (first.now ∷ second.now ∷ [])))) result }
{
    match two_fields(alloc, first, second) {
        Ok(fields) => thrown_node(alloc, name, fields),
        Err(end) => OpEnd::from(end),
    }
}

fn one_number(alloc: Global, number: i128) -> Result<Vec<Value>, AllocError>
    ensures { IfOk result (λ v. v.items ≡ int number ∷ []) }
{
    let mut fields = Vec::with_capacity(alloc, 1)?;
    fields.push(int(number))?;
    Ok(fields)
}

fn two_fields(alloc: Global, first: &Value, second: &Value) -> Result<Vec<Value>, AllocError>
    ensures { IfOk result (λ v. v.items ≡ first.now ∷ second.now ∷ []) }
{
    let mut fields = Vec::with_capacity(alloc, 2)?;
    fields.push(first.share()?)?;
    fields.push(second.share()?)?;
    Ok(fields)
}
