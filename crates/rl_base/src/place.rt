//! Places in the text of a module.

/// A place in the text of a module.
#[derive(Clone, Copy, Debug, PartialEq, Eq, Hash)]
pub struct Place {
    /// The number of the module.
    pub module: u32,
    /// The characters before the place.
    pub offset: u32,
    /// The line, counted from 1. A line feed ends a line.
    pub line: u32,
    /// The character of the line, counted from 1.
    pub column: u32,
}
