//! Output, as a trait.

ghost use Rattle.std.specs.Prelude.{◌≡◌, ◌≤◌, ℕ, OnOk, OnErr};
ghost use Rattle.rl_base.specs.Told.{Told, Grows, TakesPart};
ghost use Rattle.rl_base.specs.Faults.{Rose};

/// A piece was not put, or not all of it.
#[derive(Clone, Copy, Debug, PartialEq, Eq)]
pub struct PutFailed;

/// Where output goes.
pub trait Sink {
    /// The bytes that it was told, if it says so.
    ghost told: { Self → Told };

    /// A count of the faults of the outside.
    ghost faults: { Self → ℕ };

    /// Puts a whole piece, or fails after a front of it. It takes no memory.
    fn put(&mut self, piece: &[u8]) -> Result<(), PutFailed>
        ensures counted { faults self.old ≤ faults self.new }
        ensures ok { OnOk result (Grows (told self.old) piece.now (told self.new)) }
        ensures err { OnErr result (TakesPart (told self.old) piece.now (told self.new)) }
        ensures failed { OnErr result (Rose (faults self.old) (faults self.new)) };
}
