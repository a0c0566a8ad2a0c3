//! The run on the streams of the system.
ghost use Rattle.std.specs.Prelude.{◌≡◌, ◌≢◌, ◌↔◌};
ghost use Rattle.ddr_cli.specs.Streams.{EndsAs, IsDoneFor};
ghost use Rattle.ddr_cli.specs.Words.{AskForRules, IsListed, IsOfForm, Makes};
ghost use Rattle.ddr_cli.specs.declared.form.Form.{Form};

use crate::lent_output::{LentOutput, Output, Prompting};
use crate::{at_end, finish, form_of, run};
use ddr_io::{RealSink, RealSource, Status};
use std::alloc::Global;
use std::cell::RefCell;
use std::io::{BufWriter, Read, Write};

/// Does all that the program does, on a reader and a writer. `words` are those of the command line, without the program's
/// name. Other words than those of a form are told before anything is made for the streams, so that they need no memory.
pub fn run_on_streams<R: Read, W: Write>(
    alloc: Global,
    words: &[String],
    reader: &mut R,
    writer: &mut W,
) -> Status
    ensures usage { (result ≡ Status.Usage) ↔ (¬ IsListed words.now) }
    ensures unread { result ≡ Status.Usage → reader.new ≡ reader.old }
    ensures unwritten { result ≡ Status.Usage → writer.new ≡ writer.old }
    ensures made_unread { Makes words.now → reader.new ≡ reader.old }
    ensures broken { result ≡ Status.Broken → AskForRules words.now }

    // The status is that of what the words ask for, by the bytes of a reader that tells them, or a write fault at the last flush.
    ensures done { (form : Form) → IsOfForm words.now form → EndsAs (IsDoneFor form (R.remaining reader.old)) result }
{
    match form_of(words) {
        Some(_) => run_buffered(alloc, words, reader, writer),
        None => Status::Usage,
    }
}

// Does what the words ask for. What is written goes through a buffer, which is handed on before each read and at the end.
fn run_buffered<R: Read, W: Write>(
    alloc: Global,
    words: &[String],
    reader: &mut R,
    writer: &mut W,
) -> Status
    requires { IsListed words.now }
    ensures usage { result ≢ Status.Usage }
    ensures made_unread { Makes words.now → reader.new ≡ reader.old }
    ensures broken { result ≡ Status.Broken → AskForRules words.now }
    ensures done { (form : Form) → IsOfForm words.now form → EndsAs (IsDoneFor form (R.remaining reader.old)) result }
{
    let out = match BufWriter::new(alloc, writer) {
        Ok(writer) => RefCell::new(Output {
            writer,
            has_failed: false,
        }),
        Err(_) => return Status::OutOfMemory,
    };
    let status = run_prompting(alloc, words, reader, &out);
    let mut out = out.into_inner();
    let ended = finish(status, &mut out.writer);
    at_end(ended, !out.has_failed)
}

// Does what the words ask for, on an output that is handed on before each read.
fn run_prompting<R: Read, W: Write + Drop>(
    alloc: Global,
    words: &[String],
    reader: &mut R,
    out: &RefCell<Output<W>>,
) -> Status
    requires { IsListed words.now }
    ensures usage { result ≢ Status.Usage }
    ensures made_unread { Makes words.now → reader.new ≡ reader.old }
    ensures broken { result ≡ Status.Broken → AskForRules words.now }
    ensures done { (form : Form) → IsOfForm words.now form → IsDoneFor form (R.remaining reader.old) result }
{
    let mut source = RealSource::new(Prompting { reader, out });
    let mut sink = RealSink::new(LentOutput { out });
    run(alloc, words, &mut source, &mut sink)
}
