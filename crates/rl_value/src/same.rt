//! Equality of values, which reads each part once.
ghost use Rattle.std.specs.Prelude.{◌≡◌, map};
ghost use Rattle.std.specs.Ordering.{is_eq};
ghost use Rattle.rl_value.specs.Plain.{plains_of, pairs_of};
ghost use Rattle.rl_value.specs.View.{pair_of, tree_of};
ghost use Rattle.rl_value.specs.Order.{plain_cmp, plains_cmp, pairs_cmp};

use crate::rank::{compare_places, compare_shapes, rank};
use crate::value::{Branch, Entry, Form, Value};
use std::cmp::Ordering;

/// Whether two values are the same.
#[cycle(same)]
pub(crate) fn same(a: &Value, b: &Value) -> bool
    ensures { result ≡ is_eq (plain_cmp a.now b.now) }
{
    match (&a.form, &b.form) {
        (Form::Bool(m), Form::Bool(n)) => m.cmp(n).is_eq(),
        (Form::Int(m), Form::Int(n)) => m.cmp(n).is_eq(),
        (Form::Text(m), Form::Text(n)) => m.cmp(n).is_eq(),
        (Form::Location(m), Form::Location(n)) => compare_places(m, n).is_eq(),
        (Form::Tuple(m), Form::Tuple(n)) => same_all(&m.items, &n.items),
        (Form::List(m), Form::List(n)) => same_all(&m.items, &n.items),
        (Form::Set(m), Form::Set(n)) => same_all(&m.items, &n.items),
        (Form::Map(m), Form::Map(n)) => same_pairs(&m.pairs, &n.pairs),
        (Form::Node(m), Form::Node(n)) => match m.name.cmp(&n.name) {
            Ordering::Equal => same_all(&m.fields.items, &n.fields.items),
            found => found.is_eq(),
        },
        (Form::Tree(m), Form::Tree(n)) => same_trees(m, n),
        (Form::Leaf(m), Form::Leaf(n)) => m.cmp(n).is_eq(),
        _ => rank(a).cmp(&rank(b)).is_eq(),
    }
}

// Their texts need not be read, since equal parts have equal texts.
#[cycle(same)]
fn same_trees(a: &Branch, b: &Branch) -> bool
    ensures { result ≡ is_eq (plain_cmp (tree_of a.now) (tree_of b.now)) }
{
    match compare_shapes(&a.shape, &b.shape) {
        Ordering::Equal => same_all(&a.parts.items, &b.parts.items),
        found => found.is_eq(),
    }
}

#[cycle(same)]
fn same_all(a: &[Value], b: &[Value]) -> bool
    ensures { result ≡ is_eq (plains_cmp (plains_of a.now) (plains_of b.now)) }
{
    let n = a.len().min(b.len());
    for i in 0..n {
        if !same(&a[i], &b[i]) {
            return false;
        }
    }
    a.len().cmp(&b.len()).is_eq()
}

#[cycle(same)]
fn same_pairs(a: &[Entry], b: &[Entry]) -> bool
    ensures { result ≡ is_eq (pairs_cmp (pairs_of (map pair_of a.now)) (pairs_of (map pair_of b.now))) }
{
    let n = a.len().min(b.len());
    for i in 0..n {
        let x = &a[i];
        let y = &b[i];
        if !same(&x.key, &y.key) {
            return false;
        }
        if !same(&x.value, &y.value) {
            return false;
        }
    }
    a.len().cmp(&b.len()).is_eq()
}
