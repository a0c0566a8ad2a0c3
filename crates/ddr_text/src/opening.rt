//! Opening a job: reading its header, up to and with the separator.
ghost use Rattle.std.specs.Prelude.{ℕ, ◌≡◌, ◌≢◌, ◌+◌, ◌<◌, ◌≤◌, if◌then◌else◌, ◌++◌, List, length, IfOk, OnErr, Ok, Err};
ghost use Rattle.std.specs.Io.KnownBytes.{Consumes};
ghost use Rattle.ddr_io.specs.Faults.{Rose};
ghost use Rattle.ddr_io.specs.Line.{next_bytes};
ghost use Rattle.speed_bin.specs.Document.{header_stated};
ghost use Rattle.ddr_text.specs.Opening.{IsOpening, IsAnswer, IsUnopened, OpensAgain, judged, with_feed, is_large};
ghost use Rattle.ddr_text.specs.Separator.{Ends, role_of_line};
ghost use Rattle.ddr_text.specs.Apart.{IsApart, IsApartAnswer, ApartAgain, ApartGoesOn};
ghost use Rattle.ddr_text.specs.Front.{IsFront, GoesOn, FrontGoesOn, HasReason, HeadsAgain, IsJudged, IsOpeningReason};
ghost use Rattle.ddr_text.specs.declared.opening.Opening.TheVariants.{Accepted as AcceptedOpening};

use crate::Reason;
use crate::header_text::HeaderText;
use crate::separator::{LineRole, role_of};
use ddr_io::{Line, LineReader, OutOfMemory, Source};
use speed_bin::{Header, Version, read_header};
use std::alloc::Global;

// A header has at most so many bytes, with its line feeds.
const MOST_BYTES: usize = 65_536;

/// How a job begins.
#[derive(Drop)]
pub enum Opening {
    /// This header, with its text and its separator as they were read.
    Accepted(Header, HeaderText),
    /// It is refused with this reason: 11 to 17, or 21 to 29.
    Refused(u8),
    /// The source had a fault.
    Failed,
}

/// How a job begins, with the text of its header and the separator apart.
#[derive(Drop)]
pub enum Apart {
    /// This header, with this text, and the separator with its line feed.
    Accepted(Header, HeaderText, HeaderText),
    /// It is refused with this reason: 11 to 17, or 21 to 29.
    Refused(u8),
    /// The source had a fault.
    Failed,
}

// What stands before the trace.
#[derive(Drop)]
enum Front {
    // The text of the header, the separator with its line feed, and the version that this states.
    Text(HeaderText, HeaderText, Version),
    Refused(Reason),
    Failed,
}

/// Reads the header of a job, up to and with the separator, by `docs/FORMATS.md`. Behind a header that is accepted the
/// reader goes on with the line after it. The reader is to have neither ended nor failed.
///
/// # Errors
/// Want of memory; then the reader has gone on by some lines.
pub fn open_job<S: Source>(
    alloc: Global,
    reader: &mut LineReader,
    source: &mut S,
) -> Result<Opening, OutOfMemory>
    requires { reader.old.last ≡ Line.Text }
    ensures opening { IfOk result (IsOpening (next_bytes reader.old.held (S.left source.old)) (next_bytes reader.new.held (S.left source.new))) }
    ensures answer { IfOk result IsAnswer }
    ensures again { IfOk result OpensAgain }
    ensures going_on { IfOk result (GoesOn reader.new.last) }

    // Only a fault of the source is told as one, and only where the bytes that were taken open no job.
    ensures failed { result ≡ Ok Opening.Failed → Rose (S.faults source.old) (S.faults source.new) }
    ensures unopened { result ≡ Ok Opening.Failed → IsUnopened (next_bytes reader.old.held (S.left source.old)) (S.left source.new) }
    ensures faults_never_fall { S.faults source.old ≤ S.faults source.new }
    ensures faults_kept { result ≢ Ok Opening.Failed → S.faults source.new ≡ S.faults source.old }

    // Some bytes were taken before memory was wanting.
    ensures taken { OnErr result ((bytes : List ℕ) × Consumes (next_bytes reader.old.held (S.left source.old)) (next_bytes reader.new.held (S.left source.new)) bytes) }
{
    match open_apart(alloc, reader, source)? {
        Apart::Accepted(header, text, separator) => join(header, text, &separator),
        Apart::Refused(reason) => Ok(Opening::Refused(reason)),
        Apart::Failed => Ok(Opening::Failed),
    }
}

// The header with its text and its separator as one text.
fn join(
    header: Header,
    mut text: HeaderText,
    separator: &HeaderText,
) -> Result<Opening, OutOfMemory>
    ensures { IfOk result (λ opening. opening ≡ AcceptedOpening header (text ++ separator.now)) }
{
    text.push(separator.bytes())?;
    Ok(Opening::Accepted(header, text))
}

/// The same as [`open_job`], with the text of the header and its separator apart.
///
/// # Errors
/// Want of memory; then the reader has gone on by some lines.
pub fn open_apart<S: Source>(
    alloc: Global,
    reader: &mut LineReader,
    source: &mut S,
) -> Result<Apart, OutOfMemory>
    requires { reader.old.last ≡ Line.Text }
    ensures opening { IfOk result (IsApart (next_bytes reader.old.held (S.left source.old)) (next_bytes reader.new.held (S.left source.new))) }
    ensures answer { IfOk result IsApartAnswer }
    ensures again { IfOk result ApartAgain }
    ensures going_on { IfOk result (ApartGoesOn reader.new.last) }

    // Only a fault of the source is told as one, and only where the bytes that were taken open no job.
    ensures failed { result ≡ Ok Apart.Failed → Rose (S.faults source.old) (S.faults source.new) }
    ensures unopened { result ≡ Ok Apart.Failed → IsUnopened (next_bytes reader.old.held (S.left source.old)) (S.left source.new) }
    ensures faults_never_fall { S.faults source.old ≤ S.faults source.new }
    ensures faults_kept { result ≢ Ok Apart.Failed → S.faults source.new ≡ S.faults source.old }

    // Some bytes were taken before memory was wanting.
    ensures taken { OnErr result ((bytes : List ℕ) × Consumes (next_bytes reader.old.held (S.left source.old)) (next_bytes reader.new.held (S.left source.new)) bytes) }
{
    match read_front(alloc, reader, source)? {
        Front::Text(text, separator, version) => judge(alloc, text, separator, version),
        Front::Refused(reason) => Ok(Apart::Refused(reason.number())),
        Front::Failed => Ok(Apart::Failed),
    }
}

// Reads the lines before the separator, and that line.
fn read_front<S: Source>(
    alloc: Global,
    reader: &mut LineReader,
    source: &mut S,
) -> Result<Front, OutOfMemory>
    requires { reader.old.last ≡ Line.Text }
    ensures front { IfOk result (IsFront (next_bytes reader.old.held (S.left source.old)) (next_bytes reader.new.held (S.left source.new))) }
    ensures reason { IfOk result HasReason }
    ensures again { IfOk result HeadsAgain }
    ensures going_on { IfOk result (FrontGoesOn reader.new.last) }
    ensures failed { result ≡ Ok Front.Failed → Rose (S.faults source.old) (S.faults source.new) }
    ensures unopened { result ≡ Ok Front.Failed → IsUnopened (next_bytes reader.old.held (S.left source.old)) (S.left source.new) }
    ensures faults_never_fall { S.faults source.old ≤ S.faults source.new }
    ensures faults_kept { result ≢ Ok Front.Failed → S.faults source.new ≡ S.faults source.old }
    ensures taken { OnErr result ((bytes : List ℕ) × Consumes (next_bytes reader.old.held (S.left source.old)) (next_bytes reader.new.held (S.left source.new)) bytes) }
{
    let mut text = HeaderText::new(alloc);
    loop {
        match reader.next_line(source) {
            Line::Text => {
                let line = reader.line();
                match role_of(line) {
                    LineRole::Ends(version) => {
                        let mut separator = HeaderText::new(alloc);
                        separator.push_line(line)?;
                        return Ok(Front::Text(text, separator, version));
                    }
                    LineRole::Faulty => {
                        return Ok(Front::Refused(faulty_reason(&text, line)));
                    }
                    LineRole::Text => {
                        if is_too_much(&text, line) {
                            return Ok(Front::Refused(Reason::HeaderTooLong));
                        }
                        text.push_line(line)?;
                    }
                }
            }
            Line::TooLong => return Ok(Front::Refused(Reason::HeaderTooLong)),
            Line::End => return Ok(Front::Refused(Reason::NoSeparator)),
            Line::Unended => return Ok(Front::Refused(Reason::NoSeparator)),
            Line::Failed => return Ok(Front::Failed),
        }
    }
}

// The reason to refuse a line that begins as a separator and is none. That the header would have too many bytes with it
// comes first.
fn faulty_reason(text: &HeaderText, line: &[u8]) -> Reason
    requires short { length line.now < 512 }
    requires few { length text.now ≤ 65536 }
    ensures reason { result ≡ (if is_large (text.now ++ with_feed line.now) then Reason.HeaderTooLong else Reason.FaultySeparator) }
    ensures opening { IsOpeningReason result }
{
    if is_too_much(text, line) {
        Reason::HeaderTooLong
    } else {
        Reason::FaultySeparator
    }
}

// Whether a header would have too many bytes with this line.
fn is_too_much(text: &HeaderText, line: &[u8]) -> bool
    requires short { length line.now < 512 }
    requires few { length text.now ≤ 65536 }
    ensures { result ≡ is_large (text.now ++ with_feed line.now) }
{
    text.bytes().len() + line.len() + 1 > MOST_BYTES
}

// Reads a header in front of a separator with this version, or says why it is refused.
fn judge(
    alloc: Global,
    text: HeaderText,
    separator: HeaderText,
    version: Version,
) -> Result<Apart, OutOfMemory>
    requires { (line : List ℕ) × (separator ≡ with_feed line) × (role_of_line line ≡ Ends version) }
    ensures judged { IfOk result (IsJudged text separator version) }
    ensures answer { IfOk result IsApartAnswer }
{
    match read_header(alloc, text.bytes(), version) {
        Ok(header) => Ok(Apart::Accepted(header, text, separator)),
        Err(fault) => match Reason::of_header(fault) {
            Some(reason) => Ok(Apart::Refused(reason.number())),
            None => Err(OutOfMemory),
        },
    }
}
