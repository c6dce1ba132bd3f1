//! The bindings of patterns on values.
#![tactic(auto)]

pub mod laws;
