//! The library functions over texts.
#![tactic(auto)]

mod joining;
mod numbers;
mod parts;
mod pieces;
mod search;
mod trimming;

pub use joining::intercalate;
pub use numbers::{number_in, to_int};
pub use parts::substring;
pub use pieces::{replace_all, split};
pub use search::{contains, ends_with, starts_with};
pub use trimming::trim;
