//! Types: which values have them, which is below which, and the declarations that they rest on.
#![tactic(auto)]

mod constructor;
mod decls;
mod exceptions;
mod gathering;
mod joining;
mod laws;
mod membership;
mod subtyping;

pub use constructor::Constructor;
pub use decls::Decls;
pub use joining::join;
pub use laws::{join_is_least, may_start_is_a_test, subtype_is_an_order, values_have_types_above};
pub use membership::has;
pub use subtyping::subtype;

#[cfg(test)]
mod tests;
