//! The tokens of a text.
#![tactic(auto)]

mod fault;
mod hole;
mod lexeme;
mod list;
mod number;
mod quoted;
mod scan;
mod set;
pub mod terminal;
mod word;

pub use fault::TokenFault;
pub use list::Tokens;
pub use scan::tokens;

#[cfg(test)]
mod tests;
