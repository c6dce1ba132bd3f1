//! domain and range, of maps and of relations.

ghost use Rattle.rl_exception.specs.Answer.{Answers};
ghost use Rattle.rl_library.specs.Domains.{domain_of, range_of};

use rl_arguments::entries_in;
use rl_exception::OpEnd;
use rl_value::Value;
use std::alloc::Global;

/// The set of the keys of a map, or of the first parts of a relation's pairs.
pub fn domain(alloc: Global, v: &Value) -> Result<Value, OpEnd>
    ensures { Answers (domain_of v.now) result }
{
    match entries_in(v) {
        Some(entries) => rl_collections::keys(alloc, entries),
        None => rl_relation::domain(alloc, v),
    }
}

/// The set of the values of a map, or of the second parts of a relation's pairs.
pub fn range(alloc: Global, v: &Value) -> Result<Value, OpEnd>
    ensures { Answers (range_of v.now) result }
{
    match entries_in(v) {
        Some(entries) => rl_collections::values(alloc, entries),
        None => rl_relation::range(alloc, v),
    }
}
