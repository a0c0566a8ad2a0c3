//! A sink into a writer of the system: the trusted edge.
ghost use Rattle.std.specs.Prelude.{◌≡◌, ◌≢◌, ◌<◌, ◌≤◌, IfErr, length};
ghost use Rattle.std.specs.Io.{WritesAtMost};
ghost use Rattle.std.specs.Io.KnownBytes.{WriteAppends};
ghost use Rattle.std.specs.IoError.{error_kind};
ghost use Rattle.ddr_io.specs.Faults.{Rose};
ghost use Rattle.ddr_io.specs.Sink.{TakesAtMost, Takes, CountsWrite};

use crate::{Put, Sink};
use std::io;
use std::io::{ErrorKind, Write};

/// A sink into a writer. Each error of the writer is one fault, and so is each write that took
/// no byte. A write that a signal interrupted is tried again, and is no fault.
#[derive(Drop)]
pub struct RealSink<W: Write> {
    writer: W,
    faults: u64,
}

impl<W: Write> RealSink<W> {
    ghost use Rattle.ddr_io.specs.RealSink.{writer_of, write_faults};

    /// Hands on to the writer, with no fault so far.
    pub fn new(writer: W) -> Self
        ensures writer { writer_of result ≡ writer }
        ensures faults { write_faults result ≡ 0 }
    {
        RealSink { writer, faults: 0 }
    }
}

impl<W: Write> Sink for RealSink<W> {
    ghost use Rattle.ddr_io.specs.RealSink.{writer_of, write_faults};

    // What the writer tells. Those of the system tell nothing.
    ghost written = { λ s. W.contents (writer_of s) };

    ghost faults = { λ s. write_faults s };

    /// One write of the writer.
    fn write(&mut self, piece: &[u8]) -> Put
        requires { 0 < length piece.now }
        ensures never { result ≢ Put.NoMemory }
        ensures count { CountsWrite (write_faults self.old) (write_faults self.new) result }

        // What holds of every sink.
        ensures bound { TakesAtMost result piece.now }
        ensures bytes { Takes (W.contents (writer_of self.old)) (W.contents (writer_of self.new))
            result piece.now }
        ensures faults_never_fall { write_faults self.old ≤ write_faults self.new }
        ensures failed { result ≡ Put.Failed →
            Rose (write_faults self.old) (write_faults self.new) }
        ensures faults_kept { result ≢ Put.Failed → write_faults self.new ≡ write_faults self.old }
    {
        match write_uninterrupted(&mut self.writer, piece) {
            Ok(0) | Err(_) => {
                self.faults = self.faults.saturating_add(1);
                Put::Failed
            }
            Ok(count) => Put::Took(count),
        }
    }
}

// One write, tried again where a signal interrupted it. A call has to end, so it gives up after
// 2^64 - 1 tries, which no run of a machine reaches.
fn write_uninterrupted<W: Write>(writer: &mut W, piece: &[u8]) -> io::Result<usize>
    ensures bound { WritesAtMost result piece.now }
    ensures bytes { WriteAppends (W.contents writer.old) (W.contents writer.new) result piece.now }
    ensures retried { IfErr result (λ e. error_kind e ≢ ErrorKind.Interrupted) }
{
    'tries: for _ in 0..u64::MAX {
        match writer.write(piece) {
            Ok(count) => return Ok(count),
            Err(error) => {
                if error.kind() != ErrorKind::Interrupted {
                    return Err(error);
                }
            }
        }
    }
    Err(ErrorKind::TimedOut.into())
}
