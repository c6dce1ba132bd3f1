//! Calls by their names.
use crate::exceptions::{throw, throw_with, throw_with_two};
use rl_access::{field, range, slice, subscript, with_field, with_subscript};
use rl_exception::OpEnd;
use rl_operators::BinOp::{
    self, Add, Compose, Divide, Equal, Equivalent, Greater, GreaterOrEqual, Implies, In, Intersect,
    Is, Less, LessOrEqual, Multiply, NotEqual, NotIn, Or, Remainder, Subtract,
};
use rl_operators::UnOp::{self, Negate, Not, ReflexiveClosure, TransitiveClosure};
use rl_operators::{binary, unary};
use rl_relation::{
    carrier, domain, domain_excluded, domain_restricted, invert, range as seconds, range_excluded,
    range_restricted,
};
use rl_value::Value;
use std::alloc::Global;

pub type Answer = Result<Value, OpEnd>;

const BINARY: &[(&str, BinOp)] = &[
    ("+", Add),
    ("-", Subtract),
    ("*", Multiply),
    ("/", Divide),
    ("%", Remainder),
    ("&", Intersect),
    ("o", Compose),
    ("==", Equal),
    ("!=", NotEqual),
    ("<", Less),
    ("<=", LessOrEqual),
    (">", Greater),
    (">=", GreaterOrEqual),
    ("in", In),
    ("notin", NotIn),
    ("is", Is),
    ("||", Or),
    ("==>", Implies),
    ("<==>", Equivalent),
];

const UNARY: &[(&str, UnOp)] = &[
    ("negate", Negate),
    ("!", Not),
    ("closure", TransitiveClosure),
    ("reflexive", ReflexiveClosure),
];

fn binary_operator(name: &str, table: &[(&str, BinOp)]) -> Option<BinOp> {
    for (symbol, op) in table {
        if *symbol == name {
            return Some(*op);
        }
    }
    None
}

fn unary_operator(name: &str, table: &[(&str, UnOp)]) -> Option<UnOp> {
    for (symbol, op) in table {
        if *symbol == name {
            return Some(*op);
        }
    }
    None
}

/// What the call of this name answers, where there is one with so many operands.
pub fn apply(alloc: Global, name: &str, operands: &[Value]) -> Option<Answer> {
    match operands {
        [] => throw(alloc, name),
        [a] => apply_one(alloc, name, a),
        [a, b] => apply_two(alloc, name, a, b),
        [a, b, c] => apply_three(alloc, name, a, b, c),
        [a, b, c, d] => apply_four(alloc, name, a, b, c, d),
        _ => None,
    }
}

pub fn apply_one(alloc: Global, name: &str, a: &Value) -> Option<Answer> {
    match unary_operator(name, UNARY) {
        Some(op) => Some(unary(alloc, op, a)),
        None => relation_call(alloc, name, a),
    }
}

fn relation_call(alloc: Global, name: &str, a: &Value) -> Option<Answer> {
    match name {
        "domain" => Some(domain(alloc, a)),
        "range" => Some(seconds(alloc, a)),
        "carrier" => Some(carrier(alloc, a)),
        "invert" => Some(invert(alloc, a)),
        "slice" => Some(slice(alloc, a, None, None)),
        _ => throw_with(alloc, name, a),
    }
}

pub fn apply_two(alloc: Global, name: &str, a: &Value, b: &Value) -> Option<Answer> {
    match binary_operator(name, BINARY) {
        Some(op) => Some(binary(alloc, op, a, b)),
        None => part_call(alloc, name, a, b),
    }
}

fn part_call(alloc: Global, name: &str, a: &Value, b: &Value) -> Option<Answer> {
    match name {
        "subscript" => Some(subscript(alloc, a, b)),
        "from" => Some(slice(alloc, a, Some(b), None)),
        "to" => Some(slice(alloc, a, None, Some(b))),
        "range" => Some(range(alloc, a, None, b)),
        "field" => Some(field(alloc, a, name_in(b), None)),
        _ => restriction(alloc, name, a, b),
    }
}

fn restriction(alloc: Global, name: &str, a: &Value, b: &Value) -> Option<Answer> {
    match name {
        "domainR" => Some(domain_restricted(alloc, a, b)),
        "domainX" => Some(domain_excluded(alloc, a, b)),
        "rangeR" => Some(range_restricted(alloc, a, b)),
        "rangeX" => Some(range_excluded(alloc, a, b)),
        _ => throw_with_two(alloc, name, a, b),
    }
}

fn apply_three(alloc: Global, name: &str, a: &Value, b: &Value, c: &Value) -> Option<Answer> {
    match name {
        "slice" => Some(slice(alloc, a, Some(b), Some(c))),
        "range" => Some(range(alloc, a, Some(b), c)),
        "field" => Some(field(alloc, a, name_in(b), place_in(c))),
        "with" => Some(with_subscript(alloc, a, b, c)),
        "with_field" => Some(with_field(alloc, a, name_in(b), None, c)),
        _ => None,
    }
}

fn apply_four(
    alloc: Global,
    name: &str,
    a: &Value,
    b: &Value,
    c: &Value,
    d: &Value,
) -> Option<Answer> {
    match name {
        "with_field" => Some(with_field(alloc, a, name_in(b), place_in(c), d)),
        _ => None,
    }
}

/// The name that a value tells.
pub fn name_in(value: &Value) -> &str {
    value.as_text().unwrap_or("")
}

// The place of a field that a value tells.
fn place_in(value: &Value) -> Option<usize> {
    match value.as_int() {
        Some(place) => usize::try_from(place).ok(),
        None => None,
    }
}
