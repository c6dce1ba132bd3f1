//! How the modules of a program are loaded.
#![tactic(auto)]

mod import;
mod loaded;
mod loader;
mod loading;
#[cfg(test)]
mod loading_tests;
mod names;
mod path;
mod read;

pub use loaded::LoadEnd;
pub use loading::load;
