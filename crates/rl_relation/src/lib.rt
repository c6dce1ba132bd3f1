//! Relations: sets of pairs.
#![tactic(auto)]

mod closures;
mod composition;
pub mod laws;
mod pairs;
mod projections;
mod restrictions;

pub use closures::{closure, reflexive_closure};
pub use composition::compose;
pub use projections::{carrier, domain, invert, range};
pub use restrictions::{domain_excluded, domain_restricted, range_excluded, range_restricted};
