//! Why no value was made.

use std::alloc::{AllocError, AllocFailed};

/// Why a value was not built.
#[derive(Debug, Drop)]
pub enum BuildEnd {
    /// It would have a size above 2^24 or a height above 2,000.
    TooLarge,
    /// There was no memory for it.
    OutOfMemory,
}

impl From<AllocError> for BuildEnd {
    ghost use Rattle.rl_value.specs.declared.build_end.BuildEnd.TheVariants.{OutOfMemory};
    ghost use Rattle.std.specs.Prelude.{◌≡◌};

    ghost from_gives = { λ _ e. e ≡ OutOfMemory };

    fn from(_: AllocError) -> BuildEnd {
        BuildEnd::OutOfMemory
    }
}

impl<T: Drop> From<AllocFailed<T>> for BuildEnd {
    ghost use Rattle.rl_value.specs.declared.build_end.BuildEnd.TheVariants.{OutOfMemory};
    ghost use Rattle.std.specs.Prelude.{◌≡◌};

    ghost from_gives = { λ _ e. e ≡ OutOfMemory };

    fn from(_: AllocFailed<T>) -> BuildEnd {
        BuildEnd::OutOfMemory
    }
}
