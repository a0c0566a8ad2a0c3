//! How the program ends: its status once the output was handed on, and the number of that status.
ghost use Rattle.std.specs.Prelude.{◌≡◌, ◌≢◌, [], Bool};
ghost use Rattle.std.specs.Io.Buffered.{writer_buffer, writer_contents};
ghost use Rattle.std.specs.Io.KnownBytes.{Keeps};
ghost use Rattle.std.specs.Process.{exit_status};
ghost use Rattle.ddr_cli.specs.AtEnd.{IsAnswer, number_of, status_at_end};

use ddr_io::Status;
use std::io::{BufWriter, Write};
use std::process::ExitCode;

/// The status once the output was flushed, or could not be. A write that shows only then is a
/// write fault where the output would have been whole; an earlier fault stays.
pub fn at_end(status: Status, flushed: bool) -> Status
    ensures { result ≡ status_at_end status flushed }
{
    match status {
        Status::Ok | Status::Refused | Status::Broken if !flushed => Status::WriteFault,
        _ => status,
    }
}

/// Hands on what the writer holds back, and gives the status that the program ends with.
pub fn finish<W: Write + Drop>(status: Status, out: &mut BufWriter<W>) -> Status
    // A status that is no fault comes only where nothing is held back any more.
    ensures whole { IsAnswer result → writer_buffer out.new ≡ [] }

    // No byte is lost, and none is added.
    ensures contents_kept { Keeps (writer_contents W.contents out.old) (writer_contents W.contents out.new) }

    // What could not be handed on is a write fault; nothing else changes the status.
    ensures ended { (flushed : Bool) × (result ≡ status_at_end status flushed) }
    ensures same { result ≢ Status.WriteFault → result ≡ status }
    ensures fault { ¬ (IsAnswer status) → result ≡ status }
{
    let flushed = out.flush().is_ok();
    at_end(status, flushed)
}

/// What the process ends with: the number of the status.
pub fn exit_code(status: Status) -> ExitCode
    ensures { exit_status result ≡ number_of status }
{
    ExitCode::from(number(status))
}

// The number of the status.
fn number(status: Status) -> u8
    ensures { result ≡ number_of status }
{
    match status {
        Status::Ok => 0,
        Status::Refused => 1,
        Status::Usage => 2,
        Status::ReadFault => 3,
        Status::WriteFault => 4,
        Status::OutOfMemory => 5,
        Status::Broken => 6,
    }
}
