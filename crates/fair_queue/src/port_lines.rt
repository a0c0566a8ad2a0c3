//! Reading the lines of ports, one at a time.
ghost use Rattle.std.specs.Prelude.{ℕ, ◌≡◌, ◌≢◌, ◌+◌, ◌-◌, ◌<◌, ◌≤◌, ◌&&◌, ◌==◌, length, drop, IfSome, OnOk, IfErr, Some, None, Option, option_map};
ghost use Rattle.fair_queue.specs.Arrivals.{framed, arrival_of, is_port};
ghost use Rattle.fair_queue.specs.Reading.{IsSame, IsKnown, EndsAt, IsFramed, Frames, IsWaiting, is_bad, port_in, unread, waiting, with_ahead};
ghost use Rattle.ddr_text.specs.Stop.{ReadCause};

use crate::rest::Rest;
use ddr_io::{Line, LineReader, Source};
use ddr_text::Stop;
use std::marker::Model;

// A merge reads at most so many lines.
const MOST_LINES: u64 = 1_048_576;

/// What is known of the line ahead.
#[derive(Clone, Copy, Debug, PartialEq, Eq)]
pub(crate) enum Ahead {
    /// Nothing.
    Unknown,
    /// The line that was read last, of this port.
    Waits(u8),
    /// A bad line.
    Bad,
    /// No more lines: the input has ended, or the source had a fault.
    End,
}

/// Reads the lines of ports behind an opening.
#[derive(Drop)]
pub(crate) struct PortLines {
    reader: LineReader,
    // The number of the next line that is read, counted from 1.
    number: u64,
    ahead: Ahead,
}

impl Model for PortLines {
    ghost use Rattle.std.specs.Prelude.{◌≡◌, ◌≤◌, ◌<◌, length};
    ghost use Rattle.fair_queue.specs.Reading.{Place, IsFramed, MayGoOn};

    ghost Value = { Place };

    ghost view = { λ s. record { reader = s.reader; number = s.number; ahead = s.ahead } };

    ghost invariant = { λ s. (s.number ≤ 1048577) × MayGoOn s.ahead s.reader.last × IsFramed s.ahead s.reader.line };
}

impl PortLines {
    /// Goes on behind an opening, where the reader has neither ended nor failed.
    pub(crate) fn new(reader: LineReader) -> PortLines
        requires { reader.last ≡ Line.Text }
        ensures { result ≡ record { reader = reader; number = 1; ahead = Ahead.Unknown } }
    {
        PortLines {
            reader,
            number: 1,
            ahead: Ahead::Unknown,
        }
    }

    /// Reads the next line, unless one waits, or the input has ended.
    pub(crate) fn look<S: Source>(&mut self, source: &mut S) -> Result<(), Stop>
        ensures same { OnOk result (IsSame self.old self.new (unread self.old (S.left source.old)) (unread self.new (S.left source.new))) }
        ensures known { OnOk result (IsKnown self.new.ahead) }
        ensures steady { OnOk result (self.new.number + waiting self.old.ahead ≡ self.old.number + waiting self.new.ahead) }
        ensures few { OnOk result (self.new.number ≤ 1048577) }
        ensures ended { OnOk result (EndsAt (unread self.old (S.left source.old)) self.old.ahead (unread self.old (S.left source.old)) → EndsAt (unread self.old (S.left source.old)) self.new.ahead (unread self.new (S.left source.new))) }
        ensures faults_kept { OnOk result (S.faults source.new ≡ S.faults source.old) }
        ensures cause { IfErr result (ReadCause (S.faults source.old) (S.faults source.new)) }
    {
        match self.ahead() {
            Ahead::Unknown => self.read(source)?,
            Ahead::Waits(_) => {}
            Ahead::Bad => {}
            Ahead::End => {}
        }
        self.is_within();
        Ok(())
    }

    // A law: the number of the next line is within the limit.
    fn is_within(&self)
        ensures { self.now.number ≤ 1048577 }
    {
        let _held = self.number;
    }

    /// The port of the line that waits, if one does.
    pub(crate) fn port(&self) -> Option<u8>
        ensures port { result ≡ port_in self.now.ahead }
        ensures within { IfSome result (λ port. port < 4) }
    {
        match self.ahead {
            Ahead::Unknown => None,
            Ahead::Waits(port) => Some(port),
            Ahead::Bad => None,
            Ahead::End => None,
        }
    }

    /// Whether a bad line is ahead.
    pub(crate) fn is_bad(&self) -> bool
        ensures { result ≡ is_bad self.now.ahead }
    {
        match self.ahead {
            Ahead::Unknown => false,
            Ahead::Waits(_) => false,
            Ahead::Bad => true,
            Ahead::End => false,
        }
    }

    /// Takes the line that waits.
    pub(crate) fn take(&mut self) -> Rest
        requires { IsWaiting self.old.ahead }
        ensures rest { result ≡ drop 2 self.old.reader.line }
        ensures place { self.new ≡ with_ahead self.old Ahead.Unknown }
    {
        self.ahead = Ahead::Unknown;
        rest_of(self.reader.line())
    }

    fn ahead(&self) -> Ahead
        ensures { result ≡ self.now.ahead }
    {
        self.ahead
    }

    // Reads the next line.
    fn read<S: Source>(&mut self, source: &mut S) -> Result<(), Stop>
        requires { self.old.ahead ≡ Ahead.Unknown }
        ensures same { OnOk result (IsSame self.old self.new (unread self.old (S.left source.old)) (unread self.new (S.left source.new))) }
        ensures known { OnOk result (IsKnown self.new.ahead) }
        ensures steady { OnOk result (self.new.number ≡ self.old.number + waiting self.new.ahead) }
        ensures ended { OnOk result (EndsAt (unread self.old (S.left source.old)) self.new.ahead (unread self.new (S.left source.new))) }
        ensures faults_kept { OnOk result (S.faults source.new ≡ S.faults source.old) }
        ensures cause { IfErr result (ReadCause (S.faults source.old) (S.faults source.new)) }
    {
        ddr_text::laws::lines_are_parts();
        match self.reader.next_line(source) {
            Line::Text => self.judge(),
            Line::TooLong => self.ahead = Ahead::Bad,
            Line::Unended => self.ahead = Ahead::Bad,
            Line::End => self.ahead = Ahead::End,
            Line::Failed => {
                self.ahead = Ahead::End;
                return Err(Stop::ReadFault);
            }
        }
        Ok(())
    }

    // Judges the line that was read.
    fn judge(&mut self)
        requires unknown { self.old.ahead ≡ Ahead.Unknown }
        requires short { length self.old.reader.line < 512 }
        ensures { Frames (framed self.old.number self.old.reader.line) self.old self.new }
    {
        if self.number > MOST_LINES {
            self.ahead = Ahead::Bad;
            return;
        }
        match port_of(self.reader.line()) {
            Some(port) => {
                self.ahead = Ahead::Waits(port);
                self.number += 1;
            }
            None => self.ahead = Ahead::Bad,
        }
    }
}

// The port of a line, if it is of one.
fn port_of(line: &[u8]) -> Option<u8>
    ensures port { result ≡ option_map (λ a. a.port) (arrival_of line.now) }
    ensures within { IfSome result (λ port. (port < 4) × (2 ≤ length line.now)) }
{
    match line {
        [digit @ b'0'..=b'3', b' ', ..] => Some(*digit - b'0'),
        _ => None,
    }
}

// What stands behind the digit and the space of a line.
fn rest_of(line: &[u8]) -> Rest
    requires framed { 2 ≤ length line.now }
    requires short { length line.now < 512 }
    ensures { result ≡ drop 2 line.now }
{
    Rest::new(&line[2..])
}
