//! What the tokens of literals stand for.
#![tactic(auto)]

mod classes;
mod escape;
mod fragments;
mod integers;
#[cfg(test)]
mod literal_tests;
mod locations;
#[cfg(test)]
mod string_tests;
mod strings;
mod words;

pub use classes::class;
pub use fragments::fragment;
pub use integers::integer;
pub use locations::location;
pub use strings::string;
