//! Lines that are no cases.
use rl_value::BuildEnd;
use std::alloc::{AllocError, AllocFailed};

/// A line that is no case, or whose values could not be built.
#[derive(Debug, Drop)]
pub struct NoCase;

impl From<BuildEnd> for NoCase {
    fn from(_: BuildEnd) -> NoCase {
        NoCase
    }
}

impl From<AllocError> for NoCase {
    fn from(_: AllocError) -> NoCase {
        NoCase
    }
}

impl<T: Drop> From<AllocFailed<T>> for NoCase {
    fn from(_: AllocFailed<T>) -> NoCase {
        NoCase
    }
}
