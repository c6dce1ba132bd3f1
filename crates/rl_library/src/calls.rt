//! Library functions, called by their names.

ghost use Rattle.std.specs.Prelude.{◌≡◌, [], ◌∷◌, length, Some};
ghost use Rattle.rl_exception.specs.Answer.{Answers};
ghost use Rattle.rl_library.specs.Library.{arity_of, library_of};

use crate::domains::{domain, range};
use crate::functions::Lib;
use rl_collections::{
    delete, drop_front, dup, head, index_of, is_empty, last, max, min, reverse, size, sort, sum,
    tail, take_front, to_list, to_set,
};
use rl_exception::OpEnd;
use rl_relation::{
    carrier, domain_excluded, domain_restricted, invert, range_excluded, range_restricted,
};
use rl_strings::{
    contains, ends_with, intercalate, replace_all, split, starts_with, substring, to_int, trim,
};
use rl_trees::{spans, unparse};
use rl_value::Value;
use std::alloc::Global;

/// What a library function that prints, reads and parses nothing gives for these arguments, of which there
/// are as many as it takes. `implode` is none of these.
pub fn library(alloc: Global, f: Lib, args: &[Value]) -> Result<Value, OpEnd>
    requires { arity_of f ≡ Some (length args.now) }
    ensures { Answers (library_of f args.now) result }
{
    match args {
        [a] => with_one(alloc, f, a),
        [a, b] => with_two(alloc, f, a, b),
        [a, b, c] => with_three(alloc, f, a, b, c),
        _ => unreachable!(),
    }
}

fn with_one(alloc: Global, f: Lib, a: &Value) -> Result<Value, OpEnd>
    requires { arity_of f ≡ Some 1 }
    ensures { Answers (library_of f (a.now ∷ [])) result }
{
    match f {
        Lib::Size => size(alloc, a),
        Lib::IsEmpty => is_empty(alloc, a),
        Lib::Head => head(alloc, a),
        Lib::Last => last(alloc, a),
        Lib::Tail => tail(alloc, a),
        Lib::Reverse => reverse(alloc, a),
        Lib::Dup => dup(alloc, a),
        Lib::Sort => sort(alloc, a),
        Lib::ToSet => to_set(alloc, a),
        Lib::ToList => to_list(alloc, a),
        Lib::Max => max(alloc, a),
        Lib::Min => min(alloc, a),
        Lib::Sum => sum(alloc, a),
        Lib::Domain => domain(alloc, a),
        Lib::Range => range(alloc, a),
        Lib::Carrier => carrier(alloc, a),
        Lib::Invert => invert(alloc, a),
        Lib::Trim => trim(alloc, a),
        Lib::ToInt => to_int(alloc, a),
        Lib::Unparse => unparse(alloc, a),
        _ => unreachable!(),
    }
}

fn with_two(alloc: Global, f: Lib, a: &Value, b: &Value) -> Result<Value, OpEnd>
    requires { arity_of f ≡ Some 2 }
    ensures { Answers (library_of f (a.now ∷ b.now ∷ [])) result }
{
    match f {
        Lib::Take => take_front(alloc, a, b),
        Lib::Drop => drop_front(alloc, a, b),
        Lib::IndexOf => index_of(alloc, a, b),
        Lib::Intercalate => intercalate(alloc, a, b),
        Lib::Delete => delete(alloc, a, b),
        Lib::DomainR => domain_restricted(alloc, a, b),
        Lib::DomainX => domain_excluded(alloc, a, b),
        Lib::RangeR => range_restricted(alloc, a, b),
        Lib::RangeX => range_excluded(alloc, a, b),
        Lib::Contains => contains(alloc, a, b),
        Lib::StartsWith => starts_with(alloc, a, b),
        Lib::EndsWith => ends_with(alloc, a, b),
        Lib::Split => split(alloc, a, b),
        Lib::Spans => spans(alloc, a, b),
        _ => unreachable!(),
    }
}

fn with_three(alloc: Global, f: Lib, a: &Value, b: &Value, c: &Value) -> Result<Value, OpEnd>
    requires { arity_of f ≡ Some 3 }
    ensures { Answers (library_of f (a.now ∷ b.now ∷ c.now ∷ [])) result }
{
    match f {
        Lib::ReplaceAll => replace_all(alloc, a, b, c),
        Lib::Substring => substring(alloc, a, b, c),
        _ => unreachable!(),
    }
}
