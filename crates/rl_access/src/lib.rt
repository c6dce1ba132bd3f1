//! Parts of values: subscripts, slices, ranges and fields, and values with one part changed.
#![tactic(auto)]

mod changes;
mod elements;
mod fields;
mod operands;
mod ranges;
mod rows;
mod slices;

pub use changes::{with_field, with_subscript};
pub use elements::subscript;
pub use fields::field;
pub use ranges::range;
pub use rows::rests;
pub use slices::slice;
