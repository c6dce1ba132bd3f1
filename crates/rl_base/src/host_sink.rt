//! A writer as a sink.

ghost use Rattle.std.specs.Prelude.{◌≡◌, ◌≤◌, OnOk, OnErr, is_err, if◌then◌else◌};
ghost use Rattle.std.specs.Bool.{OnTrue, OnFalse};
ghost use Rattle.rl_base.specs.Faults.{Rose, count_after};
ghost use Rattle.rl_base.specs.Told.{Grows, TakesPart};

use crate::sink::{PutFailed, Sink};
use std::io::{ErrorKind, Write};
use std::marker::Model;

/// A writer of the machine as a sink, which contracts see as the writer and the count of faults.
/// It says what it was told where the writer says what bytes it holds.
///
/// A write that fails, that takes nothing of a piece that is not empty, or a flush that fails is a
/// fault. Each PutFailed raises the faults, a `u64` that stays at its last value.
#[derive(Drop)]
pub struct HostSink<W> {
    writer: W,
    faults: u64,
}

impl<W> Model for HostSink<W> {
    ghost use Rattle.rl_base.specs.HostSink.{SinkOver, sink_over_code};

    ghost Value = { SinkOver W };

    ghost coded = { sink_over_code W.code };

    ghost view = { λ sink. record { writer = sink.writer; faults = sink.faults } };
}

impl<W: Write> HostSink<W> {
    /// A sink that puts to this writer.
    pub fn new(writer: W) -> HostSink<W>
        ensures { result ≡ record { writer = writer; faults = 0 } }
    {
        HostSink { writer, faults: 0 }
    }
}

impl<W: Write> Sink for HostSink<W> {
    ghost told = { λ sink. W.contents sink.writer };

    ghost faults = { λ sink. sink.faults };

    /// Writes until the whole piece is taken, and then flushes the writer.
    fn put(&mut self, piece: &[u8]) -> Result<(), PutFailed>
        // The faults rise at each failure, and at no other put.
        ensures faults { self.new.faults ≡ (if is_err result then count_after self.old.faults else self.old.faults) }

        // What every sink promises.
        ensures counted { self.old.faults ≤ self.new.faults }
        ensures ok { OnOk result (Grows (W.contents self.old.writer) piece.now (W.contents self.new.writer)) }
        ensures err { OnErr result (TakesPart (W.contents self.old.writer) piece.now (W.contents self.new.writer)) }
        ensures failed { OnErr result (Rose self.old.faults self.new.faults) }
    {
        if write_piece(&mut self.writer, piece) {
            return Ok(());
        }
        self.faults = self.faults.saturating_add(1);
        Err(PutFailed)
    }
}

// Whether the writer took the whole piece.
fn write_piece<W: Write>(writer: &mut W, piece: &[u8]) -> bool
    ensures whole { OnTrue result (Grows (W.contents writer.old) piece.now (W.contents writer.new)) }
    ensures cut { OnFalse result (TakesPart (W.contents writer.old) piece.now (W.contents writer.new)) }
{
    let mut rest = piece;
    // The bound ends the loop where a writer is interrupted for ever.
    for _ in 0..u64::MAX {
        if rest.is_empty() {
            return writer.flush().is_ok();
        }
        match writer.write(rest) {
            Ok(0) => return false,
            Ok(taken) => rest = &rest[taken..],
            Err(error) if error.kind() == ErrorKind::Interrupted => {}
            Err(_) => return false,
        }
    }
    false
}

#[cfg(test)]
mod tests {
    use super::*;
    use std::io;
    use std::test::Fail;

    // A writer in memory that takes two bytes at a time, and at last none.
    #[derive(Drop)]
    struct Narrow {
        taken: Vec<u8>,
        left: usize,
        flushes: u8,
    }

    impl Write for Narrow {
        fn write(&mut self, buf: &[u8]) -> io::Result<usize> {
            let count = buf.len().min(2).min(self.left);
            self.taken.extend_from_slice(&buf[..count])?;
            self.left -= count;
            Ok(count)
        }

        fn flush(&mut self) -> io::Result<()> {
            self.flushes = self.flushes.wrapping_add(1);
            Ok(())
        }
    }

    #[test]
    fn writes_each_piece_whole_or_fails(rt: HostRuntime) -> Result<(), Fail> {
        let mut sink = HostSink::new(Narrow {
            taken: Vec::new(rt.alloc()),
            left: 6,
            flushes: 0,
        });
        let rows: [(&[u8], bool, &[u8], u8, u64); 4] = [
            (b"abcde", true, b"abcde", 1, 0),
            (b"", true, b"abcde", 2, 0),
            (b"fg", false, b"abcdef", 2, 1),
            (b"h", false, b"abcdef", 2, 2),
        ];
        for (piece, put, taken, flushes, faults) in rows {
            assert_eq!(rt; sink.put(piece).is_ok(), put, "after {taken:?}");
            assert_eq!(rt; sink.writer.taken.as_slice(), taken);
            assert_eq!(rt; sink.writer.flushes, flushes);
            assert_eq!(rt; sink.faults, faults);
        }
        Ok(())
    }
}
