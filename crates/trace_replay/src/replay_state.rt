//! A replay under way: what it keeps, and how it reads trace lines and offers their requests.
ghost use Rattle.std.specs.Prelude.{ℕ, ◌≡◌, ◌<◌, ◌≤◌, ◌+◌, List, Option, [], ◌∷◌, ◌++◌, length, is_some, true, false, IfOk, IfErr, OnOk, IfSome, IfNone};
ghost use Rattle.speed_bin.specs.Header.{IsAccepted};
ghost use Rattle.speed_bin.specs.declared.header.Header.{Header as AnyHeader};
ghost use Rattle.ddr_io.specs.Line.{next_bytes};
ghost use Rattle.ddr_io.specs.declared.line_reader.Line.{Line as AnyEnd};
ghost use Rattle.ddr_text.specs.declared.lines.TraceLine.{TraceLine as AnyLine};
ghost use Rattle.ddr_text.specs.declared.lines.ReportLine.TheVariants.{End as EndLine};
ghost use Rattle.requests.specs.Queue.{waiting, IsFull};
ghost use Rattle.reports.specs.Requests.{request_of as asks_for};
ghost use Rattle.reports.specs.Runs.{Run, ready};
ghost use Rattle.reports.specs.Offered.{offered, controller_steps};
ghost use Rattle.reports.specs.Report.{answers};
ghost use Rattle.reports.specs.Stats.{stats};
ghost use Rattle.ddr_text.specs.ReportParts.{refusal_lines};
ghost use Rattle.reports.specs.Underway.{IsOffered};
ghost use Rattle.trace_replay.specs.Coupled.{from_of, finished_of};
ghost use Rattle.trace_replay.specs.Ending.{end_lines, reason_in};
ghost use Rattle.trace_replay.specs.Replay.{refusal_of};
ghost use Rattle.trace_replay.specs.Job.{MOST};
ghost use Rattle.trace_replay.specs.ReplayState.{LoopInvariant, IsUnder, IsReady, IsStoppedByReadFault, IsKnown, MayGoOn, Asks, IsAsked, Refuses, tally_with, taken, following, left_of, found_as};
ghost use Rattle.ddr_text.specs.Stop.{ReadCause};

use crate::Coupled;
use crate::counts::Counts;
use crate::ending::Ending;
use crate::request_buffer::{HeldRequest, Outcome, RequestBuffer};
use crate::trace_lines::{Next, Tally, next_line};
use command_words::{Geometry, LineAddr};
use ddr_io::{LineReader, OutOfMemory, Source};
use ddr_text::{Stop, TraceLine};
use requests::{Kind, Request};
use scheduler::Clock;
use speed_bin::Header;
use std::alloc::Global;

/// What is known of the line behind those that were taken.
#[derive(Clone, Copy, Drop)]
pub(crate) enum Ahead {
    /// It was not asked for.
    Unknown,
    /// It is this one: a request that came back, or an F or I line.
    NextLine(TraceLine),
    /// It is an I line, whose clocks pass.
    Passes(u64),
    /// There is none.
    End,
    /// It is refused with this reason.
    Refused(u8),
}

/// A replay under way.
#[derive(Drop)]
pub(crate) struct ReplayState {
    pub(crate) coupled: Coupled,
    pub(crate) g: Geometry,
    pub(crate) held: RequestBuffer,
    pub(crate) ahead: Ahead,
    // of the lines that were taken
    pub(crate) tally: Tally,
    // how many commands were issued, and the clock of the last one
    pub(crate) commands: u64,
    pub(crate) last: Clock,
    pub(crate) counts: Counts,
}

// What was found is the line ahead.
fn found(next: Next) -> Ahead
    ensures { result ≡ found_as next }
{
    match next {
        Next::Found(line) => Ahead::NextLine(line),
        Next::End => Ahead::End,
        Next::Refused(reason) => Ahead::Refused(reason),
    }
}

// The same request once more.
fn again(request: &Request) -> Request
    ensures { result ≡ request.now }
{
    Request {
        line: request.line,
        kind: request.kind,
    }
}

// What a trace line asks for, and the bytes that a write brings.
fn asked(line: &TraceLine) -> Option<(Request, Option<[u8; 64]>)>
    ensures some { IfSome result (λ it. Asks line.now it.0 it.1) }
    ensures none { IfNone result ((n : ℕ) → asks_for n line.now ≡ []) }
{
    match line {
        TraceLine::Read(line) => Some((request_of(*line, Kind::Read), None)),
        TraceLine::Write(line, bytes) => Some((request_of(*line, Kind::Write), Some(*bytes))),
        TraceLine::Flip(_, _, _) => None,
        TraceLine::Idle(_) => None,
    }
}

fn request_of(line: LineAddr, kind: Kind) -> Request
    ensures { result ≡ record { line = line; kind = kind } }
{
    Request { line, kind }
}

impl ReplayState {
    /// A replay before its first turn.
    pub(crate) fn new(alloc: Global, header: &Header) -> Result<ReplayState, OutOfMemory>
        requires { IsAccepted header.now }
        ensures holds { IfOk result (λ p. LoopInvariant header.now p [] []) }
        ensures ahead { IfOk result (λ p. p.ahead ≡ Ahead.Unknown) }
    {
        reports::laws::begins_a_run();
        Ok(ReplayState {
            coupled: Coupled::new(alloc, header)?,
            g: header.geometry(),
            held: RequestBuffer::new(alloc)?,
            ahead: Ahead::Unknown,
            tally: Tally {
                lines: 0,
                clocks: 0,
            },
            commands: 0,
            last: 0,
            counts: Counts::new(),
        })
    }

    /// What ends the report of the run so far.
    pub(crate) fn ending(&self) -> Ending
        requires { (h : AnyHeader) × (trace : List AnyLine) × (run : Run) × LoopInvariant h self.now trace run }
        ensures lines { (h : AnyHeader) (trace : List AnyLine) (run : Run) → LoopInvariant h self.now trace run
            → end_lines result ≡ stats h trace run ++ EndLine (from_of self.now.coupled) ∷ refusal_lines (refusal_of trace (reason_in self.now.ahead)) }
        ensures clock { result.clock ≡ from_of self.now.coupled }
        ensures refusal { is_some result.refusal ≡ is_some (reason_in self.now.ahead) }
    {
        Coupled::one_log();
        reports::laws::gives_to_a_device();
        Ending {
            counts: self.counts,
            peak: self.coupled.peak(),
            scrub: self.coupled.scrub_counts(),
            clock: self.coupled.now(),
            refusal: self.refusal(),
        }
    }

    /// The number and the reason of the line that was refused, where one was.
    fn refusal(&self) -> Option<(u64, u8)>
        requires { (h : AnyHeader) × (trace : List AnyLine) × (run : Run) × LoopInvariant h self.now trace run }
        ensures { Refuses self.now.ahead self.now.tally.lines result }
    {
        match self.ahead {
            Ahead::Refused(reason) => Some((self.tally.lines + 1, reason)),
            Ahead::Unknown => None,
            Ahead::NextLine(_) => None,
            Ahead::Passes(_) => None,
            Ahead::End => None,
        }
    }

    // ---- Reading and offering

    /// Reads trace lines and offers their requests, until one comes back, an F or I line was read, or no line is left.
    pub(crate) fn offer_all<S: Source>(
        &mut self,
        reader: &mut LineReader,
        source: &mut S,
    ) -> Result<(), Stop>
        requires going_on { MayGoOn self.old.ahead reader.old.last }
        requires holds { (h : AnyHeader) × (trace : List AnyLine) × (run : Run) × LoopInvariant h self.old trace run }
        ensures ready { OnOk result ((h : AnyHeader) (start before written : Option (List ℕ)) → IsUnder h self.old start (next_bytes reader.old.held (S.left source.old)) before written
            → IsReady h self.new start (next_bytes reader.new.held (S.left source.new)) before written) }
        ensures begins_a_report { IfErr result (λ stop. (h : AnyHeader) (start before written : Option (List ℕ)) → IsUnder h self.old start (next_bytes reader.old.held (S.left source.old)) before written
            → IsStoppedByReadFault h start (S.left source.new) before written) }
        ensures fewer { left_of self.new ≤ left_of self.old }
        ensures going_on { OnOk result (MayGoOn self.new.ahead reader.new.last) }
        // Behind a line that is refused nothing more is asked for.
        ensures unasked { (reason : ℕ) → self.old.ahead ≡ Ahead.Refused reason → source.new ≡ source.old }
        ensures faults_never_fall { S.faults source.old ≤ S.faults source.new }
        ensures faults_kept { OnOk result (S.faults source.new ≡ S.faults source.old) }
        ensures cause { IfErr result (ReadCause (S.faults source.old) (S.faults source.new)) }
    {
        'lines: loop {
            self.look_ahead(reader, source)?;
            if !self.offer_next() {
                return Ok(());
            }
        }
    }

    // Reads the next line, where it was not asked for.
    fn look_ahead<S: Source>(&mut self, reader: &mut LineReader, source: &mut S) -> Result<(), Stop>
        requires going_on { MayGoOn self.old.ahead reader.old.last }
        requires holds { (h : AnyHeader) × (trace : List AnyLine) × (run : Run) × LoopInvariant h self.old trace run }
        ensures under { OnOk result ((h : AnyHeader) (start before written : Option (List ℕ)) → IsUnder h self.old start (next_bytes reader.old.held (S.left source.old)) before written
            → IsUnder h self.new start (next_bytes reader.new.held (S.left source.new)) before written) }
        ensures known { OnOk result (IsKnown self.new.ahead) }
        ensures begins_a_report { IfErr result (λ stop. (h : AnyHeader) (start before written : Option (List ℕ)) → IsUnder h self.old start (next_bytes reader.old.held (S.left source.old)) before written
            → IsStoppedByReadFault h start (S.left source.new) before written) }
        ensures fewer { left_of self.new ≤ left_of self.old }
        ensures lines { self.new.tally ≡ self.old.tally }
        ensures going_on { OnOk result (MayGoOn self.new.ahead reader.new.last) }
        // A line that is known is not asked for again.
        ensures unasked { IsKnown self.old.ahead → source.new ≡ source.old }
        ensures known_still { IsKnown self.old.ahead → self.new ≡ self.old }
        ensures faults_never_fall { S.faults source.old ≤ S.faults source.new }
        ensures faults_kept { OnOk result (S.faults source.new ≡ S.faults source.old) }
        ensures cause { IfErr result (ReadCause (S.faults source.old) (S.faults source.new)) }
    {
        match self.ahead {
            Ahead::Unknown => {
                Coupled::agrees();
                scheduler::laws::bounds();
                reports::laws::counts_the_unserved();
                reports::laws::begins_a_run();
                let next = next_line(self.tally, self.g, reader, source)?;
                self.ahead = found(next);
                Ok(())
            }
            Ahead::NextLine(_) => Ok(()),
            Ahead::Passes(_) => Ok(()),
            Ahead::End => Ok(()),
            Ahead::Refused(_) => Ok(()),
        }
    }

    // Offers the next line, where it is a request, and answers whether it was taken.
    fn offer_next(&mut self) -> bool
        requires holds { (h : AnyHeader) × (trace : List AnyLine) × (run : Run) × LoopInvariant h self.old trace run }
        requires known { IsKnown self.old.ahead }
        ensures under { (h : AnyHeader) (start left before written : Option (List ℕ)) → IsUnder h self.old start left before written
            → IsUnder h self.new start left before written }
        ensures filled { (h : AnyHeader) (trace : List AnyLine) (run : Run) → result ≡ false → LoopInvariant h self.new trace run
            → IsOffered h trace run (following self.new.ahead) }
        ensures fewer { left_of self.new ≤ left_of self.old }
        ensures line { result ≡ true → self.new.tally.lines ≡ self.old.tally.lines + 1 }
        ensures goes_on { (last : AnyEnd) → MayGoOn self.old.ahead last → MayGoOn self.new.ahead last }
        ensures ahead { result ≡ true → self.new.ahead ≡ Ahead.Unknown }
        ensures refused { (reason : ℕ) → self.old.ahead ≡ Ahead.Refused reason → result ≡ false }
        ensures same { result ≡ false → self.new ≡ self.old }
    {
        match self.ahead {
            Ahead::NextLine(line) => match asked(&line) {
                Some((request, bytes)) => self.offer(request, bytes),
                None => false,
            },
            Ahead::Unknown => false,
            Ahead::Passes(_) => false,
            Ahead::End => false,
            Ahead::Refused(_) => false,
        }
    }

    // Offers a request of the next line, and answers whether it was taken.
    fn offer(&mut self, request: Request, bytes: Option<[u8; 64]>) -> bool
        requires holds { (h : AnyHeader) × (trace : List AnyLine) × (run : Run) × LoopInvariant h self.old trace run }
        requires asked { IsAsked self.old.ahead request bytes }
        ensures under { (h : AnyHeader) (start left before written : Option (List ℕ)) → IsUnder h self.old start left before written
            → IsUnder h self.new start left before written }
        ensures full { (h : AnyHeader) (trace : List AnyLine) (run : Run) → result ≡ false → LoopInvariant h self.old trace run
            → IsFull (length (offered trace)) (waiting h (offered trace) (controller_steps trace run)) }
        ensures taken { result ≡ true → self.new.tally ≡ tally_with self.old.tally 0 }
        ensures ahead { result ≡ true → self.new.ahead ≡ Ahead.Unknown }
        ensures commands { self.new.commands ≡ self.old.commands }
        ensures finished { finished_of self.new.coupled ≡ finished_of self.old.coupled }
        ensures same { result ≡ false → self.new ≡ self.old }
    {
        reports::laws::takes_a_request();
        reports::laws::gives_to_a_controller();
        reports::laws::rests_on_the_lines_so_far();
        reports::laws::takes_from_the_held();
        Coupled::agrees();
        scheduler::laws::bounds();
        scheduler::laws::in_order();
        requests::laws::oldest_unserved();
        match self.coupled.offer(again(&request)) {
            Ok(_) => {
                self.held.push(HeldRequest {
                    number: self.tally.lines + 1,
                    request,
                    bytes,
                    outcome: Outcome::Unserved,
                });
                self.take_line(0);
                true
            }
            Err(_) => false,
        }
    }

    // The next line is taken, which lets so many clocks pass.
    pub(crate) fn take_line(&mut self, clocks: u64)
        requires { (self.old.tally.lines < MOST) × (self.old.tally.clocks + clocks ≤ 4294967296) }
        ensures { self.new ≡ taken self.old clocks }
    {
        self.tally.lines += 1;
        self.tally.clocks += clocks;
        self.ahead = Ahead::Unknown;
    }
}
