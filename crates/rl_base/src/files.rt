//! Reading files, as a trait.

ghost use Rattle.std.specs.Prelude.{◌≡◌, ◌≤◌, ℕ, vec_len, IfOk, IsErrOf};
ghost use Rattle.rl_base.specs.Asked.{Asked, AsksFor};
ghost use Rattle.rl_base.specs.Faults.{Rose};
ghost use Rattle.rl_base.specs.Holds.{Holds};
ghost use Rattle.rl_base.specs.ReadAnswer.{ReadAnswer};

use std::alloc::{AllocError, Global};

/// Why a file was not read.
#[derive(Clone, Copy, Debug, PartialEq, Eq)]
pub enum ReadEnd {
    /// There is no file of that path.
    Missing,
    /// The file has more bytes than the limit.
    TooLong,
    /// The outside failed.
    Failed,
    OutOfMemory,
}

impl From<AllocError> for ReadEnd {
    ghost use Rattle.std.specs.Prelude.{◌≡◌};
    ghost use Rattle.rl_base.specs.declared.files.ReadEnd.TheVariants.{OutOfMemory};

    ghost from_gives = { λ _ end. end ≡ OutOfMemory };

    fn from(_: AllocError) -> ReadEnd {
        ReadEnd::OutOfMemory
    }
}

/// Where files are read.
pub trait Files {
    /// The files, if it says which there are.
    ghost holds: { Self → Holds };

    /// The paths of the reads so far, in order, if it says so.
    ghost asked: { Self → Asked };

    /// A count of the faults of the outside.
    ghost faults: { Self → ℕ };

    /// Reads the file of a path, if it has at most `limit` bytes.
    fn read(&mut self, alloc: Global, path: &str, limit: u32) -> Result<Vec<u8>, ReadEnd>
        ensures held { holds self.new ≡ holds self.old }
        ensures asked { AsksFor (asked self.old) path.now result (asked self.new) }
        ensures counted { faults self.old ≤ faults self.new }
        ensures answer { ReadAnswer (holds self.old) path.now limit result }
        ensures short { IfOk result (λ bytes. vec_len bytes ≤ limit) }
        ensures failed { IsErrOf result ReadEnd.Failed → Rose (faults self.old) (faults self.new) };
}

#[cfg(test)]
pub(crate) mod tests {
    use super::*;

    // An answer is the one that is wanted.
    pub(crate) fn is_answer(
        answer: &Result<Vec<u8>, ReadEnd>,
        want: &Result<&[u8], ReadEnd>,
    ) -> bool {
        match (answer, want) {
            (Ok(bytes), Ok(want)) => bytes.as_slice() == *want,
            (Err(end), Err(want)) => end == want,
            _ => false,
        }
    }
}
