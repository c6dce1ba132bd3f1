//! What every layer stands on: the outside as two traits, a budget, shared values, and texts with places.
#![tactic(auto)]

mod decode;
mod file_table;
mod files;
mod host_files;
mod host_sink;
mod mem_files;
mod mem_sink;
mod meter;
mod name;
mod place;
mod recorded_files;
mod row;
mod shared;
mod sink;
mod text;
#[cfg(test)]
mod text_tests;

pub use decode::{TextFault, chars};
pub use files::{Files, ReadEnd};
pub use host_files::HostFiles;
pub use host_sink::HostSink;
pub use mem_files::MemFiles;
pub use mem_sink::MemSink;
pub use meter::Meter;
pub use name::Name;
pub use place::Place;
pub use recorded_files::RecordedFiles;
pub use row::Row;
pub use shared::Shared;
pub use sink::{PutFailed, Sink};
pub use text::Chars;
