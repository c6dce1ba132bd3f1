//! Exceptions by their names.
use crate::calls::{Answer, name_in};
use rl_exception::{
    ambiguity, arithmetic_exception, call_failed, divided_by_zero, empty_list, empty_set,
    illegal_argument, index_out_of_bounds, io_exception, no_return, no_such_field, no_such_key,
    out_of_range, parse_error, path_not_found, stack_overflow, too_large, uninitialized_variable,
    visit_type, wrong_kind,
};
use rl_value::Value;
use std::alloc::Global;

pub fn throw(alloc: Global, name: &str) -> Option<Answer> {
    match name {
        "StackOverflow" => Some(Err(stack_overflow(alloc))),
        "TooLarge" => Some(Err(too_large(alloc))),
        "VisitType" => Some(Err(visit_type(alloc))),
        "WrongKind" => Some(Err(wrong_kind(alloc))),
        "NoReturn" => Some(Err(no_return(alloc))),
        "EmptyList" => Some(Err(empty_list(alloc))),
        "EmptySet" => Some(Err(empty_set(alloc))),
        "out_of_range" => Some(Err(out_of_range(alloc))),
        "divided_by_zero" => Some(Err(divided_by_zero(alloc))),
        _ => None,
    }
}

pub fn throw_with(alloc: Global, name: &str, a: &Value) -> Option<Answer> {
    match name {
        "CallFailed" => Some(Err(call_failed(alloc, a))),
        "NoSuchKey" => Some(Err(no_such_key(alloc, a))),
        "IllegalArgument" => Some(Err(illegal_argument(alloc, a))),
        "PathNotFound" => Some(Err(path_not_found(alloc, a))),
        "ParseError" => Some(Err(parse_error(alloc, a))),
        "IndexOutOfBounds" => Some(Err(index_out_of_bounds(alloc, a.as_int().unwrap_or(0)))),
        _ => throw_with_text(alloc, name, name_in(a)),
    }
}

fn throw_with_text(alloc: Global, name: &str, text: &str) -> Option<Answer> {
    match name {
        "ArithmeticException" => Some(Err(arithmetic_exception(alloc, text))),
        "UninitializedVariable" => Some(Err(uninitialized_variable(alloc, text))),
        "NoSuchField" => Some(Err(no_such_field(alloc, text))),
        "IO" => Some(Err(io_exception(alloc, text))),
        _ => None,
    }
}

pub fn throw_with_two(alloc: Global, name: &str, a: &Value, b: &Value) -> Option<Answer> {
    match name {
        "Ambiguity" => Some(Err(ambiguity(alloc, a, name_in(b)))),
        _ => None,
    }
}
