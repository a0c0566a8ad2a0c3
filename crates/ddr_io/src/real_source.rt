//! A source over a reader of the system: the trusted edge.
ghost use Rattle.std.specs.Prelude.{◌≡◌, ◌≢◌, ◌<◌, ◌≤◌, IfErr, length};
ghost use Rattle.std.specs.Io.{ReadsAtMost};
ghost use Rattle.std.specs.Io.KnownBytes.{ReadConsumes};
ghost use Rattle.std.specs.IoError.{error_kind};
ghost use Rattle.ddr_io.specs.Faults.{Rose};
ghost use Rattle.ddr_io.specs.Source.{GivesAtMost, Gives, CountsRead};

use crate::{Got, Source};
use std::io;
use std::io::{ErrorKind, Read};

/// A source over a reader. Each error of the reader is one fault, but a read that a signal
/// interrupted is tried again, and is none.
#[derive(Drop)]
pub struct RealSource<R: Read> {
    reader: R,
    faults: u64,
}

impl<R: Read> RealSource<R> {
    ghost use Rattle.ddr_io.specs.RealSource.{reader_of, read_faults};

    /// Gives what the reader gives, with no fault so far.
    pub fn new(reader: R) -> Self
        ensures reader { reader_of result ≡ reader }
        ensures faults { read_faults result ≡ 0 }
    {
        RealSource { reader, faults: 0 }
    }
}

impl<R: Read> Source for RealSource<R> {
    ghost use Rattle.ddr_io.specs.RealSource.{reader_of, read_faults};

    // What the reader tells. Those of the system tell nothing.
    ghost left = { λ s. R.remaining (reader_of s) };

    ghost faults = { λ s. read_faults s };

    /// One read of the reader. A read of 0 bytes is the end.
    fn read(&mut self, buf: &mut [u8]) -> Got
        requires { 0 < length buf.old }
        ensures count { CountsRead (read_faults self.old) (read_faults self.new) result }

        // What holds of every source.
        ensures bound { GivesAtMost result buf.new }
        ensures bytes { Gives (R.remaining (reader_of self.old)) (R.remaining (reader_of self.new))
            result buf.new }
        ensures faults_never_fall { read_faults self.old ≤ read_faults self.new }
        ensures failed { result ≡ Got.Failed →
            Rose (read_faults self.old) (read_faults self.new) }
        ensures faults_kept { result ≢ Got.Failed → read_faults self.new ≡ read_faults self.old }
    {
        match read_uninterrupted(&mut self.reader, buf) {
            Ok(0) => Got::End,
            Ok(count) => Got::Bytes(count),
            Err(_) => {
                self.faults = self.faults.saturating_add(1);
                Got::Failed
            }
        }
    }
}

// One read, tried again where a signal interrupted it. A call has to end, so it gives up after
// 2^64 - 1 tries, which no run of a machine reaches.
fn read_uninterrupted<R: Read>(reader: &mut R, buf: &mut [u8]) -> io::Result<usize>
    ensures bound { ReadsAtMost result buf.new }
    ensures bytes { ReadConsumes (R.remaining reader.old) (R.remaining reader.new) result buf.new }
    ensures retried { IfErr result (λ e. error_kind e ≢ ErrorKind.Interrupted) }
{
    'tries: for _ in 0..u64::MAX {
        match reader.read(buf) {
            Ok(count) => return Ok(count),
            Err(error) => {
                if error.kind() != ErrorKind::Interrupted {
                    return Err(error);
                }
            }
        }
    }
    Err(ErrorKind::TimedOut.into())
}
