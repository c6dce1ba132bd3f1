//! The library functions over lists, sets and maps.
#![tactic(auto)]

mod ends;
mod extremes;
mod lists;
mod maps;
mod repeats;
mod sizes;
mod sorting;
mod sums;

pub use ends::{head, last, tail};
pub use extremes::{max, min};
pub use lists::{drop_front, index_of, reverse, take_front, to_set};
pub use maps::{delete, keys, to_list, values};
pub use repeats::dup;
pub use sizes::{is_empty, size};
pub use sorting::sort;
pub use sums::sum;
