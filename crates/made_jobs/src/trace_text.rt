//! Writing a line of a trace, without memory.
ghost use Rattle.std.specs.Prelude.{◌≡◌, []};
ghost use Rattle.made_jobs.specs.TraceText.{spelled_line};

use arrayvec::ArrayVec;
use ddr_text::{TraceLine, put_bytes, put_spaced, put_text};

/// Appends the line and its line feed. It takes no memory and cannot fail.
#[tactic(auto, unfolding(crate::specs::TraceText::spelled_line, crate::specs::TraceText::trace_text))]
pub fn write_trace_line(line: &TraceLine, out: &mut ArrayVec<u8, 512>)
    requires { out.old.items ≡ [] }
    ensures { out.new.items ≡ spelled_line line.now }
{
    match line {
        TraceLine::Read(line) => {
            put_text(b"R", out);
            put_spaced(u64::from(line.get()), out);
        }
        TraceLine::Write(line, bytes) => {
            put_text(b"W", out);
            put_spaced(u64::from(line.get()), out);
            put_bytes(bytes, out);
        }
        TraceLine::Flip(line, device, bit) => {
            put_text(b"F", out);
            put_spaced(u64::from(line.get()), out);
            put_spaced(u64::from(*device), out);
            put_spaced(u64::from(*bit), out);
        }
        TraceLine::Idle(clocks) => {
            put_text(b"I", out);
            put_spaced(*clocks, out);
        }
    }
    put_text(b"\n", out);
}
