//! Relations restricted to pairs with some first or second parts.

ghost use Rattle.std.specs.Prelude.{◌≡◌, IfOk};
ghost use Rattle.rl_value.specs.Order.{plain_cmp};
ghost use Rattle.rl_value.specs.Rising.{Rises};
ghost use Rattle.rl_exception.specs.Answer.{Answers};
ghost use Rattle.rl_relation.specs.Pairs.{is_member, as_wanted, part_of, kept};
ghost use Rattle.rl_relation.specs.Relations.{restricted_of, domain_restricted_of, domain_excluded_of, range_restricted_of, range_excluded_of};

use crate::pairs::{Side, elements_in, pairs_in, part};
use rl_exception::{OpEnd, fitted_set, wrong_kind};
use rl_value::Value;
use std::alloc::{AllocError, Global};

/// The pairs of a relation whose first part is in a set.
pub fn domain_restricted(alloc: Global, a: &Value, s: &Value) -> Result<Value, OpEnd>
    ensures { Answers (domain_restricted_of a.now s.now) result }
{
    restricted(alloc, a, s, Side::First, true)
}

/// The pairs of a relation whose first part is not in a set.
pub fn domain_excluded(alloc: Global, a: &Value, s: &Value) -> Result<Value, OpEnd>
    ensures { Answers (domain_excluded_of a.now s.now) result }
{
    restricted(alloc, a, s, Side::First, false)
}

/// The pairs of a relation whose second part is in a set.
pub fn range_restricted(alloc: Global, a: &Value, s: &Value) -> Result<Value, OpEnd>
    ensures { Answers (range_restricted_of a.now s.now) result }
{
    restricted(alloc, a, s, Side::Second, true)
}

/// The pairs of a relation whose second part is not in a set.
pub fn range_excluded(alloc: Global, a: &Value, s: &Value) -> Result<Value, OpEnd>
    ensures { Answers (range_excluded_of a.now s.now) result }
{
    restricted(alloc, a, s, Side::Second, false)
}

// The pairs of which one part is in a set, where that is wanted, or not in it.
fn restricted(alloc: Global, a: &Value, s: &Value, side: Side, wanted: bool) -> Result<Value, OpEnd>
    ensures { Answers (restricted_of side wanted a.now s.now) result }
{
    let Some(pairs) = pairs_in(a) else {
        return Err(wrong_kind(alloc));
    };
    let Some(elements) = elements_in(s) else {
        return Err(wrong_kind(alloc));
    };
    let found = kept(alloc, pairs, elements, side, wanted)?;
    fitted_set(alloc, found)
}

fn kept(
    alloc: Global,
    pairs: &[Value],
    elements: &[Value],
    side: Side,
    wanted: bool,
) -> Result<Vec<Value>, AllocError>
    requires { Rises plain_cmp elements.now }
    ensures { IfOk result (λ found. found.items ≡ kept side wanted elements.now pairs.now) }
{
    let mut found = Vec::new(alloc);
    for pair in pairs {
        if is_wanted(pair, elements, side, wanted) {
            found.push(pair.share()?)?;
        }
    }
    Ok(found)
}

fn is_wanted(pair: &Value, elements: &[Value], side: Side, wanted: bool) -> bool
    requires { Rises plain_cmp elements.now }
    ensures { result ≡ as_wanted wanted (is_member elements.now (part_of side pair.now)) }
{
    let found = has(elements, part(pair, side));
    if wanted { found } else { !found }
}

// Whether this is one of these rising values, by halving.
fn has(elements: &[Value], x: &Value) -> bool
    requires { Rises plain_cmp elements.now }
    ensures { result ≡ is_member elements.now x.now }
{
    elements.binary_search(x).is_ok()
}
