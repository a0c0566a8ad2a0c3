//! A request trace as a job.
ghost use Rattle.std.specs.Prelude.{ℕ, ◌≡◌, ◌<◌, ◌≤◌, List, Option, IfErr, IfOk, IfSome, OnOk};
ghost use Rattle.command_words.specs.Geometry.{Shape, lines_of};
ghost use Rattle.foreign_traces.specs.Ending.{IsCause, IsWriteCause};
ghost use Rattle.foreign_traces.specs.Formats.{shape_in};
ghost use Rattle.foreign_traces.specs.Lines.{IsJob, IsRequest};

use crate::writing::{put_heading, put_job_line};
use crate::{Request, RequestFault, RequestField, RequestFormat, Stop, read_request_line};
use ddr_io::{Line, LineReader, Sink, Source};
use ddr_text::TraceLine;

// As many lines as the trace of a job may have.
const MOST: u64 = 1_048_576;

/// Writes a request trace as a job, whose header's text ends with its separator. The bytes of a write are invented: they
/// are the number of its line in the trace, eight times, least byte first.
///
/// # Errors
/// The first line that is refused, or a fault; what is known of the lines before it was written.
pub fn write_job_of<S: Source, K: Sink>(
    format: &RequestFormat,
    text: &[u8],
    source: &mut S,
    sink: &mut K,
) -> Result<(), Stop<RequestFault>>
    ensures job { OnOk result ((count : ℕ) × (count ≤ 1048576) × IsJob (shape_in format.now) text.now count (K.written sink.old) (K.written sink.new)) }
    ensures kept { OnOk result ((S.faults source.new ≡ S.faults source.old) × (K.faults sink.new ≡ K.faults sink.old)) }
    ensures cause { IfErr result (IsCause (S.faults source.old) (S.faults source.new) (K.faults sink.old) (K.faults sink.new)) }
{
    put_heading(text, sink)?;
    let mut count = 0u64;
    let mut reader = LineReader::new();
    'lines: for number in 1..u64::MAX {
        match reader.next_line(source) {
            Line::Text => match read_request_line(format, reader.line()) {
                Ok(asked) => count = put_asked(asked, count, number, sink)?,
                Err(fault) => return Err(Stop::Line(number, fault)),
            },
            Line::End => return Ok(()),
            Line::TooLong => return Err(Stop::LineTooLong(number)),
            Line::Unended => return Err(Stop::LineUnended(number)),
            Line::Failed => return Err(Stop::ReadFault),
        }
    }
    Err(Stop::Line(u64::MAX, no_room()))
}

// Writes the line of a request, where there is one, and gives the number of lines with it. So many stand there already.
fn put_asked<K: Sink>(
    asked: Option<Request>,
    count: u64,
    number: u64,
    sink: &mut K,
) -> Result<u64, Stop<RequestFault>>
    requires { count ≤ 1048576 }
    ensures few { IfOk result (λ after. after ≤ 1048576) }
    ensures job { IfOk result (λ after. (g : Shape) (text : List ℕ) (before : Option (List ℕ)) → IfSome asked (λ it. it.line < lines_of g)
        → IsJob g text count before (K.written sink.old) → IsJob g text after before (K.written sink.new)) }
    ensures kept { OnOk result (K.faults sink.new ≡ K.faults sink.old) }
    ensures cause { IfErr result (IsWriteCause (K.faults sink.old) (K.faults sink.new)) }
{
    match asked {
        Some(request) => {
            if count >= MOST {
                return Err(Stop::Line(number, no_room()));
            }
            put_job_line(&line_of(&request, number), sink)?;
            Ok(count + 1)
        }
        None => Ok(count),
    }
}

fn no_room() -> RequestFault {
    RequestFault {
        number: 1,
        expected: RequestField::Room,
    }
}

// The line of a request.
fn line_of(request: &Request, number: u64) -> TraceLine
    ensures { (g : Shape) → request.now.line < lines_of g → IsRequest g result }
{
    if request.is_write {
        TraceLine::Write(request.line, invented(number))
    } else {
        TraceLine::Read(request.line)
    }
}

// The bytes of a write: the number, eight times.
fn invented(number: u64) -> [u8; 64] {
    let digits = number.to_le_bytes();
    let mut bytes = [0u8; 64];
    for (at, byte) in bytes.iter_mut().enumerate() {
        *byte = digits[at % 8];
    }
    bytes
}
