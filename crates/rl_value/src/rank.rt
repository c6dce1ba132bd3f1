//! Comparisons of what holds no other value.
ghost use Rattle.std.specs.Prelude.{◌≡◌};
ghost use Rattle.rl_value.specs.View.{shape_of, location_of};
ghost use Rattle.rl_value.specs.Order.{rank, scheme_rank, role_rank, shape_cmp, plain_cmp};

use crate::shape::{Role, Scheme, Shape};
use crate::value::{Form, Place, Value};
use std::cmp::Ordering;

/// The place of a value's kind in the order of kinds.
pub(crate) fn rank(value: &Value) -> u8
    ensures { result ≡ rank value.now }
{
    match &value.form {
        Form::Bool(_) => 0,
        Form::Int(_) => 1,
        Form::Text(_) => 2,
        Form::Location(_) => 3,
        Form::Tuple(_) => 4,
        Form::List(_) => 5,
        Form::Set(_) => 6,
        Form::Map(_) => 7,
        Form::Node(_) => 8,
        Form::Tree(_) => 9,
        Form::Leaf(_) => 10,
    }
}

fn scheme_rank(scheme: Scheme) -> u8
    ensures { result ≡ scheme_rank scheme }
{
    match scheme {
        Scheme::Cwd => 0,
        Scheme::Unknown => 1,
    }
}

fn role_rank(role: Role) -> u8
    ensures { result ≡ role_rank role }
{
    match role {
        Role::Syntax => 0,
        Role::Lexical => 1,
        Role::Layout => 2,
        Role::Keyword => 3,
        Role::Rep => 4,
        Role::Opt => 5,
    }
}

pub(crate) fn compare_places(a: &Place, b: &Place) -> Ordering
    ensures { result ≡ plain_cmp (location_of a.now) (location_of b.now) }
{
    scheme_rank(a.scheme)
        .cmp(&scheme_rank(b.scheme))
        .then(a.path.cmp(&b.path))
        .then(a.span.cmp(&b.span))
}

pub(crate) fn compare_shapes(a: &Shape, b: &Shape) -> Ordering
    ensures { result ≡ shape_cmp (shape_of a.now) (shape_of b.now) }
{
    a.sort
        .cmp(&b.sort)
        .then(role_rank(a.role).cmp(&role_rank(b.role)))
        .then(a.rule.cmp(&b.rule))
        .then(a.label.cmp(&b.label))
}
