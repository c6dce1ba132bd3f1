//! What holds of reading, as laws.
#![tactic(auto)]

mod laws;

pub use laws::{each_token_stands_once, no_phrase_is_unknown};
