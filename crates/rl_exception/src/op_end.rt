//! How an operation on values ends.

use rl_value::Value;
use std::alloc::{AllocError, AllocFailed};

/// Why an operation gave no value.
#[derive(Debug, Drop)]
pub enum OpEnd {
    /// It throws this exception.
    Throw(Value),
    /// There was no memory for it.
    OutOfMemory,
}

impl From<AllocError> for OpEnd {
    ghost use Rattle.rl_exception.specs.declared.op_end.OpEnd.TheVariants.{OutOfMemory};
    ghost use Rattle.std.specs.Prelude.{◌≡◌};

    ghost from_gives = { λ _ e. e ≡ OutOfMemory };

    fn from(_: AllocError) -> OpEnd {
        OpEnd::OutOfMemory
    }
}

impl<T: Drop> From<AllocFailed<T>> for OpEnd {
    ghost use Rattle.rl_exception.specs.declared.op_end.OpEnd.TheVariants.{OutOfMemory};
    ghost use Rattle.std.specs.Prelude.{◌≡◌};

    ghost from_gives = { λ _ e. e ≡ OutOfMemory };

    fn from(_: AllocFailed<T>) -> OpEnd {
        OpEnd::OutOfMemory
    }
}
