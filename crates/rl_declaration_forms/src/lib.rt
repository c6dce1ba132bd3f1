//! Types and what stands at the top of a module, from what the parts of their phrases say.
#![tactic(auto)]

mod constructor;
mod declaration;
mod field;
mod function;
mod rule;
mod type_form;

pub use rule::declaration_form;
