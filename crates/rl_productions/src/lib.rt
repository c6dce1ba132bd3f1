//! The definitions of syntax that a module writes, as they stand in its text.
#![tactic(auto)]

mod definition;
mod symbol;

pub use definition::{Alt, Assoc, Level, Prod, SyntaxDef, SyntaxRole};
pub use symbol::{After, Atom, CharClass, Limit, Near, Rep, Sym};
