//! A reader of lines.
ghost use Rattle.std.specs.Prelude.{ℕ, ◌≡◌, ◌≢◌, ◌+◌, ◌/◌, ◌<◌, ◌≤◌, [], length, take, drop, slice_index, slice_range, IfSome, IfNone};
ghost use Rattle.ddr_io.specs.Faults.{Rose};
ghost use Rattle.ddr_io.specs.Line.{IsNextLine, IsFeedAt, HasFeed, HasNoFeed, StopsAt, TakesToFeed, next_bytes};
ghost use Rattle.ddr_io.specs.Reading.{Reading, Fills};

use crate::{Got, Source};
use memchr::memchr;
use std::marker::Model;

/// What a call of `next_line` found.
#[derive(Clone, Copy, Debug, PartialEq, Eq)]
pub enum Line {
    /// A line, which `line` shows.
    Text,
    /// No byte is left.
    End,
    /// The next 512 bytes hold no line feed.
    TooLong,
    /// The bytes end within a line: 1 to 511 are left, none of them a line feed.
    Unended,
    /// The source had a fault, at this call or an earlier one.
    Failed,
}

// A line and its line feed are at most so long.
const MAX_LINE: usize = 512;

// The bytes that the reader has room for. One read asks for at least half of them. The room is part of the reader, and is
// copied where that is moved, so it is no larger than a page.
const ROOM: usize = 4096;

/// Cuts the bytes of a source into lines. It holds what it has read and not yet given.
///
/// Contracts see the bytes that are held, the line of the last answer, and that answer, which is
/// `Text` before the first call. The reader's next bytes are those that it holds, and then those
/// that its source has left.
#[derive(Drop)]
pub struct LineReader {
    buffer: [u8; ROOM],
    // The line of the last answer.
    line_start: usize,
    line_end: usize,
    // The bytes that are held.
    start: usize,
    end: usize,
    last: Line,
}

impl Model for LineReader {
    ghost use Rattle.std.specs.Prelude.{◌≤◌, slice_range};
    ghost use Rattle.ddr_io.specs.Reading.{Reading};
    ghost use Rattle.ddr_io.specs.declared.line_reader.TheConstants.{ROOM};

    ghost Value = { Reading };

    ghost view = { λ r. record {
      held = slice_range r.buffer r.start r.end;
      line = slice_range r.buffer r.line_start r.line_end;
      last = r.last;
    } };

    ghost invariant = { λ r. (r.start ≤ r.end) × (r.end ≤ ROOM)
        × (r.line_start ≤ r.line_end) × (r.line_end ≤ ROOM) };
}

impl LineReader {
    /// A reader that holds nothing yet.
    pub fn new() -> Self
        ensures { result ≡ record { held = []; line = []; last = Line.Text } }
    {
        LineReader {
            buffer: [0; ROOM],
            line_start: 0,
            line_end: 0,
            start: 0,
            end: 0,
            last: Line::Text,
        }
    }

    /// The line of the last answer where that is `Text`, without its line feed. Else it is empty.
    pub fn line(&self) -> &[u8]
        ensures { result.now ≡ self.now.line }
    {
        &self.buffer[self.line_start..self.line_end]
    }

    /// Finds the next line, and passes over it and its line feed. Any other answer passes over
    /// nothing: the reader then gives that answer for good, and reads no more. It answers `Failed`
    /// only where the source counted a fault in this call, or where it answered so before.
    pub fn next_line<S: Source>(&mut self, source: &mut S) -> Line
        ensures last { self.new.last ≡ result }
        ensures no_line { result ≢ Line.Text → self.new.line ≡ [] }

        // Each answer, by the next bytes.
        ensures found { self.old.last ≡ Line.Text →
            IsNextLine (next_bytes self.old.held (S.left source.old))
            (next_bytes self.new.held (S.left source.new)) self.new.line result }

        // A reader that has ended or failed stays so, and reads nothing.
        ensures stays { self.old.last ≢ Line.Text → self.new ≡ record self.old { line = [] } }
        ensures stopped { self.old.last ≢ Line.Text → source.new ≡ source.old }

        // It reads only while it holds no line feed, so what it took ends with one read.
        ensures unread { HasFeed self.old.held → source.new ≡ source.old }
        ensures taken { self.old.last ≡ Line.Text → HasNoFeed self.old.held →
            TakesToFeed self.old.held (S.left source.old) (S.left source.new) }
        ensures unfed { self.old.last ≡ Line.Text → result ≡ Line.Failed → HasNoFeed self.new.held }

        // How far it has read where no line came.
        ensures at_stop { self.old.last ≡ Line.Text → StopsAt (S.left source.old) self.new.held (S.left source.new) result }

        // A fault is told where the source counted one.
        ensures faults_never_fall { S.faults source.old ≤ S.faults source.new }
        ensures failed { self.old.last ≡ Line.Text → result ≡ Line.Failed →
            Rose (S.faults source.old) (S.faults source.new) }
        ensures faults_kept { result ≢ Line.Failed → S.faults source.new ≡ S.faults source.old }
    {
        if self.last != Line::Text {
            return self.stop(self.last);
        }
        // So many of the bytes that are held are known to be no line feed.
        let mut clean = 0;
        loop {
            if let Some(at) = self.next_feed(clean) {
                self.take_line(at);
                return Line::Text;
            }
            clean = self.held().len();
            if clean >= MAX_LINE {
                return self.stop(Line::TooLong);
            }
            match self.fill(source) {
                Got::Bytes(_) => {}
                Got::End if clean == 0 => return self.stop(Line::End),
                Got::End => return self.stop(Line::Unended),
                Got::Failed => return self.stop(Line::Failed),
            }
        }
    }

    fn held(&self) -> &[u8]
        ensures { result.now ≡ self.now.held }
    {
        &self.buffer[self.start..self.end]
    }

    // The place of the line feed that ends the next line, if it is held. The first `clean` bytes
    // were searched before.
    fn next_feed(&self, clean: usize) -> Option<usize>
        requires within { clean ≤ length self.now.held }
        requires short { clean < MAX_LINE }
        requires searched { HasNoFeed (take clean self.now.held) }
        ensures found { IfSome result (IsFeedAt self.now.held) }
        ensures short { IfSome result (λ at. at < MAX_LINE) }
        ensures none { IfNone result (HasNoFeed (take MAX_LINE self.now.held)) }
        ensures none_held { length self.now.held < MAX_LINE → IfNone result (HasNoFeed self.now.held) }
    {
        let held = self.held();
        let within = held.len().min(MAX_LINE);
        let at = find_feed(&held[clean..within])?;
        Some(clean + at)
    }

    // Gives the first `at` bytes as a line, and drops the line feed behind them.
    fn take_line(&mut self, at: usize)
        requires { at < length self.old.held }
        ensures { self.new ≡ record {
          held = drop (at + 1) self.old.held;
          line = take at self.old.held;
          last = Line.Text;
        } }
    {
        self.line_start = self.start;
        self.line_end = self.start + at;
        self.start = self.line_end + 1;
        self.last = Line::Text;
    }

    // Answers this from now on.
    fn stop(&mut self, answer: Line) -> Line
        ensures answer { result ≡ answer }
        ensures state { self.new ≡ record { held = self.old.held; line = []; last = answer } }
    {
        self.line_start = 0;
        self.line_end = 0;
        self.last = answer;
        answer
    }

    // Forgets the line, and reads more behind the bytes that are held.
    fn fill<S: Source>(&mut self, source: &mut S) -> Got
        requires { length self.old.held < MAX_LINE }
        ensures bytes { Fills self.old self.new (S.left source.old) (S.left source.new) result }
        ensures faults_never_fall { S.faults source.old ≤ S.faults source.new }
        ensures failed { result ≡ Got.Failed → Rose (S.faults source.old) (S.faults source.new) }
        ensures faults_kept { result ≢ Got.Failed → S.faults source.new ≡ S.faults source.old }
    {
        self.line_start = 0;
        self.line_end = 0;
        let (start, end) = make_room(&mut self.buffer, self.start, self.end);
        self.start = start;
        self.end = end;
        let got = source.read(&mut self.buffer[end..]);
        if let Got::Bytes(count) = got {
            self.end += count;
        }
        got
    }
}

// Moves the bytes from `start` to `end` to the front, where less than half of the buffer is free
// behind them. It answers where they then stand.
fn make_room(buffer: &mut [u8; ROOM], start: usize, end: usize) -> (usize, usize)
    requires ordered { start ≤ end }
    requires short { end < start + MAX_LINE }
    requires within { end ≤ ROOM }
    ensures ordered { result.0 ≤ result.1 }
    ensures room { result.1 ≤ ROOM / 2 }
    ensures moved { slice_range buffer.new result.0 result.1 ≡ slice_range buffer.old start end }
{
    if end <= ROOM / 2 {
        return (start, end);
    }
    buffer.copy_within(start..end, 0);
    (0, end - start)
}

// The place of the first line feed.
fn find_feed(bytes: &[u8]) -> Option<usize>
    ensures found { IfSome result (IsFeedAt bytes.now) }
    ensures none { IfNone result (HasNoFeed bytes.now) }
{
    memchr(b'\n', bytes)
}
