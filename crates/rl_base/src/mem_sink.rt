//! A sink in memory.

ghost use Rattle.std.specs.Prelude.{◌≡◌, ◌≤◌, ◌↔◌, [], Some, IsTrue, IsErr, IfOk, OnOk, OnErr};
ghost use Rattle.rl_base.specs.Told.{Grows, TakesPart};
ghost use Rattle.rl_base.specs.Faults.{Rose};
ghost use Rattle.rl_base.specs.MemSink.{next_fail, next_put_fails, after_put};

use crate::sink::{PutFailed, Sink};
use std::alloc::{AllocError, Global};
use std::marker::Model;

/// A sink in memory with room for a number of bytes. Chosen puts fail.
///
/// Puts and faults are counted in `u64`s, which stay at their last value.
#[derive(Drop)]
pub struct MemSink {
    bytes: Vec<u8>,
    room: usize,
    fails: Vec<(u32, u32)>,
    puts: u64,
    faults: u64,
}

impl Model for MemSink {
    ghost use Rattle.std.specs.Prelude.{◌≤◌, vec_len, vec_capacity};
    ghost use Rattle.rl_base.specs.MemSink.{SinkState, sink_state_code};

    ghost Value = { SinkState };

    ghost coded = { sink_state_code };

    ghost view = { λ a. record { bytes = a.bytes.items; room = a.room; fails = a.fails.items; puts = a.puts; faults = a.faults } };

    ghost invariant = { λ a. (vec_len a.bytes ≤ a.room) × (a.room ≤ vec_capacity a.bytes) };
}

impl MemSink {
    /// A sink with room for `room` bytes. Of `fails`, the first pair (c, k) with a given c makes
    /// the put with the number c fail, counted from 1, after at most k bytes of its piece.
    pub fn new(alloc: Global, room: usize, fails: &[(u32, u32)]) -> Result<MemSink, AllocError>
        ensures { IfOk result (λ sink. sink ≡ record { bytes = []; room = room; fails = fails.now; puts = 0; faults = 0 }) }
    {
        Ok(MemSink {
            bytes: Vec::with_capacity(alloc, room)?,
            room,
            fails: Vec::from_slice(alloc, fails)?,
            puts: 0,
            faults: 0,
        })
    }

    /// The bytes that it was told. It takes no memory.
    pub fn bytes(&self) -> &[u8]
        ensures { result.now ≡ self.now.bytes }
    {
        self.bytes.as_slice()
    }

    /// How often `put` was called.
    pub fn puts(&self) -> u64
        ensures { result ≡ self.now.puts }
    {
        self.puts
    }

    // How much the next put takes at most, if it is one of those that fail.
    fn next_fail(&self) -> Option<u32>
        ensures { result ≡ next_fail self.now }
    {
        let next = self.puts.saturating_add(1);
        self.fails
            .iter()
            .find(|pair| u64::from(pair.0) == next)
            .map(|pair| pair.1)
    }
}

impl Sink for MemSink {
    ghost told = { λ s. Some s.bytes };

    ghost faults = { λ s. s.faults };

    /// Fails exactly where the put is one of those that fail, or the piece is longer than the
    /// room that is left, and raises the faults at no other put. It takes what fits, and of a put
    /// that fails by its number no more than was given for it.
    fn put(&mut self, piece: &[u8]) -> Result<(), PutFailed>
        ensures state { self.new ≡ after_put self.old piece.now }
        ensures fails { IsErr result ↔ IsTrue (next_put_fails self.old piece.now) }

        // What every sink promises.
        ensures counted { self.old.faults ≤ self.new.faults }
        ensures ok { OnOk result (Grows (Some self.old.bytes) piece.now (Some self.new.bytes)) }
        ensures err { OnErr result (TakesPart (Some self.old.bytes) piece.now (Some self.new.bytes)) }
        ensures failed { OnErr result (Rose self.old.faults self.new.faults) }
    {
        let planned = self.next_fail();
        let left = self.room - self.bytes.len();
        let fits = piece.len().min(left);
        let taken = planned.map_or(fits, |most| fits.min(most as usize));
        self.puts = self.puts.saturating_add(1);
        self.bytes.extend_from_slice(&piece[..taken]).unwrap();
        if planned.is_none() && fits == piece.len() {
            return Ok(());
        }
        self.faults = self.faults.saturating_add(1);
        Err(PutFailed)
    }
}

#[cfg(test)]
mod tests {
    use super::*;
    use std::test::Fail;

    #[test]
    fn takes_what_fits_and_fails_at_the_given_numbers(rt: HostRuntime) -> Result<(), Fail> {
        let fails = [(2, 1), (2, 2), (4, 9)];
        let mut sink = MemSink::new(rt.alloc(), 6, &fails)?;
        let rows: [(&[u8], bool, &[u8]); 7] = [
            (b"ab", true, b"ab"),
            (b"xyz", false, b"abx"),
            (b"c", true, b"abxc"),
            (b"d", false, b"abxcd"),
            (b"", true, b"abxcd"),
            (b"efg", false, b"abxcde"),
            (b"", true, b"abxcde"),
        ];
        for (piece, taken, told) in rows {
            assert_eq!(rt; sink.put(piece).is_ok(), taken, "after {told:?}");
            assert_eq!(rt; sink.bytes(), told);
        }
        assert_eq!(rt; sink.faults, 3);
        Ok(())
    }
}
