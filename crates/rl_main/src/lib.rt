//! The job of the command: from its words to what it prints and the status that it ends with.
#![tactic(auto)]

mod command;
mod lines;
mod status;

pub use command::run;
pub use status::Status;
