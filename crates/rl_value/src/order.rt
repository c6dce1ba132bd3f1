//! The order of values.

ghost use Rattle.std.specs.Prelude.{◌≡◌, refl, map};
ghost use Rattle.std.specs.Ordering.{as_partial_cmp};
ghost use Rattle.std.specs.Cmp.{partial_equiv_from_equiv, partial_order_from_agreeing_total};
ghost use Rattle.rl_value.specs.Plain.{plains_of, pairs_of};
ghost use Rattle.rl_value.specs.View.{pair_of};
ghost use Rattle.rl_value.specs.Order.{plain_cmp, plains_cmp, pairs_cmp};
ghost use Rattle.rl_value.specs.Laws.{plain_eq, plain_eq_equiv, plain_cmp_total};
ghost use Rattle.rl_value.specs.Rising.{rising, Rises};

use crate::leaves::compare_texts;
use crate::rank::{compare_places, compare_shapes, rank};
use crate::same::same;
use crate::value::{Entry, Form, Value};
use std::cmp::Ordering;

// Kinds in their order, and two of one kind by what they hold.
#[cycle(compare)]
fn compare(a: &Value, b: &Value) -> Ordering
    ensures { result ≡ plain_cmp a.now b.now }
{
    match (&a.form, &b.form) {
        (Form::Bool(m), Form::Bool(n)) => m.cmp(n),
        (Form::Int(m), Form::Int(n)) => m.cmp(n),
        (Form::Text(m), Form::Text(n)) => m.cmp(n),
        (Form::Location(m), Form::Location(n)) => compare_places(m, n),
        (Form::Tuple(m), Form::Tuple(n)) => compare_all(&m.items, &n.items),
        (Form::List(m), Form::List(n)) => compare_all(&m.items, &n.items),
        (Form::Set(m), Form::Set(n)) => compare_all(&m.items, &n.items),
        (Form::Map(m), Form::Map(n)) => compare_pairs(&m.pairs, &n.pairs),
        (Form::Node(m), Form::Node(n)) => match m.name.cmp(&n.name) {
            Ordering::Equal => compare_all(&m.fields.items, &n.fields.items),
            found => found,
        },
        (Form::Tree(m), Form::Tree(n)) => {
            match compare_texts(&m.parts.items, &n.parts.items).then_with(|| compare_shapes(
                &m.shape, &n.shape,
            )) {
                Ordering::Equal => compare_parts(&m.parts.items, &n.parts.items),
                found => found,
            }
        }
        (Form::Leaf(m), Form::Leaf(n)) => m.cmp(n),
        _ => rank(a).cmp(&rank(b)),
    }
}

// The first that differ decide, and a list comes before what it begins.
#[cycle(compare)]
fn compare_all(left: &[Value], right: &[Value]) -> Ordering
    ensures { result ≡ plains_cmp (plains_of left.now) (plains_of right.now) }
{
    let n = left.len().min(right.len());
    for i in 0..n {
        match compare(&left[i], &right[i]) {
            Ordering::Equal => {}
            found => return found,
        }
    }
    left.len().cmp(&right.len())
}

// The same for the parts of trees, where comparing what is equal would read each text once more at
// each level.
#[cycle(compare)]
fn compare_parts(a: &[Value], b: &[Value]) -> Ordering
    ensures { result ≡ plains_cmp (plains_of a.now) (plains_of b.now) }
{
    let n = a.len().min(b.len());
    for i in 0..n {
        let x = &a[i];
        let y = &b[i];
        if !same(x, y) {
            return compare(x, y);
        }
    }
    a.len().cmp(&b.len())
}

// Key, value, key, value.
#[cycle(compare)]
fn compare_pairs(a: &[Entry], b: &[Entry]) -> Ordering
    ensures { result ≡ pairs_cmp (pairs_of (map pair_of a.now)) (pairs_of (map pair_of b.now)) }
{
    let n = a.len().min(b.len());
    for i in 0..n {
        let x = &a[i];
        let y = &b[i];
        match compare(&x.key, &y.key) {
            Ordering::Equal => {}
            found => return found,
        }
        match compare(&x.value, &y.value) {
            Ordering::Equal => {}
            found => return found,
        }
    }
    a.len().cmp(&b.len())
}

impl PartialEq for Value {
    ghost eq = { plain_eq };

    ghost laws = { partial_equiv_from_equiv plain_eq_equiv };

    fn eq(&self, other: &Value) -> bool {
        same(self, other)
    }
}

impl Eq for Value {
    ghost laws = { plain_eq_equiv };
}

impl PartialOrd for Value {
    ghost partial_cmp = { as_partial_cmp plain_cmp };

    ghost laws = { partial_order_from_agreeing_total plain_cmp plain_cmp_total (λ _ _. refl) (λ _ _. refl) };

    fn partial_cmp(&self, other: &Value) -> Option<Ordering> {
        Some(compare(self, other))
    }
}

impl Ord for Value {
    ghost cmp = { plain_cmp };

    ghost total = { plain_cmp_total };

    ghost matches_partial_cmp = { λ _ _. refl };

    ghost matches_eq = { λ _ _. refl };

    fn cmp(&self, other: &Value) -> Ordering {
        compare(self, other)
    }
}

/// Sorts the values and removes the repeats.
pub(crate) fn make_rising(items: &mut Vec<Value>)
    ensures elements { items.new.items ≡ rising plain_cmp items.old.items }
    ensures rises { Rises plain_cmp items.new.items }
{
    items.sort_unstable();
    items.dedup();
}
