//! Why modules are not loaded.

use rl_syntax::Fault;
use std::alloc::AllocError;

/// Why modules were not loaded.
#[derive(Debug, Drop)]
pub enum LoadEnd {
    /// The first fault, of a code from 1 to 13.
    Fault(Fault),
    /// A read failed.
    FileFault,
    OutOfMemory,
}

impl From<AllocError> for LoadEnd {
    ghost use Rattle.std.specs.Prelude.{◌≡◌};
    ghost use Rattle.rl_modules.specs.declared.loaded.LoadEnd.TheVariants.{OutOfMemory};

    ghost from_gives = { λ _ end. end ≡ OutOfMemory };

    fn from(_: AllocError) -> LoadEnd {
        LoadEnd::OutOfMemory
    }
}
