//! The forms of modules, and the variables that patterns set.
#![tactic(auto)]

mod bound;
#[cfg(test)]
mod bound_tests;
mod declaration;
mod expression;
mod fault;
mod fragment;
mod identifier;
mod module;
mod operator;
mod pattern;
mod statement;
mod ty;

pub use bound::bound_variables;
pub use declaration::{Body, Decl, Function, Modifier, Variant};
pub use expression::{Exp, Suffix};
pub use fault::Fault;
pub use fragment::{Concrete, Piece};
pub use identifier::{Identifier, PatternVariable};
pub use module::{Module, Modules};
pub use operator::{Assignment, Comparison, ProductOperator, Strategy, SumOperator};
pub use pattern::{Pattern, PatternElement};
pub use statement::{Case, Handler, Stat};
pub use ty::{Field, Ty};
