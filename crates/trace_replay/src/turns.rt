//! A turn of a replay: a command is issued and delivered, a line is carried out, or the run ends.
ghost use Rattle.std.specs.Prelude.{ℕ, ◌≡◌, ◌<◌, ◌≤◌, ◌+◌, List, Option, ◌∷◌, true, false, IfOk, IfErr, OnOk, IfSome};
ghost use Rattle.std.specs.List.{flat_map};
ghost use Rattle.std.specs.Io.KnownBytes.{Appends};
ghost use Rattle.speed_bin.specs.declared.header.Header.{Header as AnyHeader};
ghost use Rattle.ddr_io.specs.declared.line_reader.Line.{Line as AnyEnd};
ghost use Rattle.ddr_io.specs.Sink.{AppendsPrefix};
ghost use Rattle.ddr_text.specs.Spelling.{spelled};
ghost use Rattle.ddr_text.specs.declared.lines.TraceLine.{TraceLine as AnyLine};
ghost use Rattle.ddr_text.specs.declared.lines.ReportLine.TheVariants.{Issued as IssuedLine};
ghost use Rattle.scheduler.specs.Controller.{number_of};
ghost use Rattle.device_core.specs.Standing.{lent};
ghost use Rattle.reports.specs.Runs.{Run, ready};
ghost use Rattle.reports.specs.Report.{answers, latest};
ghost use Rattle.reports.specs.Underway.{IsOffered, issue};
ghost use Rattle.trace_replay.specs.Coupled.{from_of, until_of, finished_of};
ghost use Rattle.trace_replay.specs.Turning.{IsSpelled, Turned};
ghost use Rattle.trace_replay.specs.Delivery.{DeliveryLaws};
ghost use Rattle.trace_replay.specs.RequestBuffer.{Has};
ghost use Rattle.trace_replay.specs.ReplayState.{LoopInvariant, IsIssuing, IsDelivered, IsReady, IsBegun, TurnAfter, MayGoOn, following, left_of, bytes_at, outcome_with, noted};
ghost use Rattle.ddr_text.specs.Stop.{WriteCause};

use crate::Coupled;
use crate::answers::put_answers;
use crate::replay_state::ReplayState;
use crate::request_buffer::{Outcome, RequestBuffer};
use command_words::{Command, encode};
use ddr_io::{OutOfMemory, Sink};
use ddr_text::{ReportLine, Stop, put_line};
use error_scrub::LineRead;
use requests::RequestId;
use scheduler::{Clock, Turn};

impl ReplayState {
    /// One turn, and the report lines that it makes. It answers whether the run goes on.
    pub(crate) fn turn<K: Sink>(&mut self, sink: &mut K) -> Result<bool, Stop>
        requires ready { (h : AnyHeader) × (trace : List AnyLine) × (run : Run) × (LoopInvariant h self.old trace run) × IsOffered h trace run (following self.old.ahead) }
        ensures after { IfOk result (λ goes_on. (h : AnyHeader) (start left before : Option (List ℕ)) → IsReady h self.old start left before (K.written sink.old)
            → TurnAfter goes_on h self.new start left before (K.written sink.new)) }
        ensures begins_a_report { IfErr result (λ stop. (h : AnyHeader) (start left before : Option (List ℕ)) → IsReady h self.old start left before (K.written sink.old)
            → IsBegun h start before (K.written sink.new)) }
        ensures fewer { IfOk result (λ goes_on. goes_on ≡ true → left_of self.new < left_of self.old) }
        ensures reader { (last : AnyEnd) → MayGoOn self.old.ahead last → MayGoOn self.new.ahead last }
        ensures faults_never_fall { K.faults sink.old ≤ K.faults sink.new }
        ensures faults_kept { OnOk result (K.faults sink.new ≡ K.faults sink.old) }
        ensures cause { IfErr result (WriteCause (K.faults sink.old) (K.faults sink.new)) }
    {
        reports::laws::issues_a_command();
        match self.turned() {
            Turn::Issue(clock, command, id) => {
                self.issue(clock, command, id, sink)?;
                Ok(true)
            }
            Turn::Idle => {
                self.pass(sink)?;
                Ok(true)
            }
            Turn::Done => Ok(false),
        }
    }

    // One turn of the controller.
    fn turned(&mut self) -> Turn
        requires ready { (h : AnyHeader) × (trace : List AnyLine) × (run : Run) × (LoopInvariant h self.old trace run) × IsOffered h trace run (following self.old.ahead) }
        ensures turned { (h : AnyHeader) (trace : List AnyLine) (run : Run) → LoopInvariant h self.old trace run → IsOffered h trace run (following self.old.ahead)
            → Turned result h self.new trace run }
        ensures few { self.old.commands < 2200000000 }
        ensures commands { self.new.commands ≡ self.old.commands }
        ensures tally { self.new.tally ≡ self.old.tally }
        ensures ahead { self.new.ahead ≡ self.old.ahead }
        ensures finished { finished_of self.new.coupled ≡ finished_of self.old.coupled }
    {
        Coupled::agrees();
        Coupled::one_log();
        scheduler::laws::sound();
        scheduler::laws::in_order();
        scheduler::laws::bounds();
        scheduler::laws::work();
        scheduler::laws::limits();
        scheduler::laws::passed();
        scheduler::laws::serves();
        reports::laws::gives_to_a_controller();
        reports::laws::serves_what_is_chosen();
        reports::laws::ends_a_run();
        let turn = self.coupled.turn();
        spelled_by_words(&turn);
        turn
    }

    // A command was issued: its C line, its delivery, and the D lines that are due then.
    fn issue<K: Sink>(
        &mut self,
        clock: Clock,
        command: Command,
        id: Option<RequestId>,
        sink: &mut K,
    ) -> Result<(), Stop>
        requires issuing { (h : AnyHeader) × (trace : List AnyLine) × (run : Run) × IsIssuing h self.old trace run clock command id }
        ensures after { OnOk result ((h : AnyHeader) (trace : List AnyLine) (run : Run) → IsIssuing h self.old trace run clock command id
            → LoopInvariant h self.new trace (issue trace clock command (number_of id) ∷ run)) }
        ensures wrote { OnOk result ((h : AnyHeader) (trace : List AnyLine) (run : Run) → IsIssuing h self.old trace run clock command id
            → Appends (K.written sink.old) (K.written sink.new) (flat_map spelled (latest h trace run (issue trace clock command (number_of id))))) }
        ensures writes_a_prefix { IfErr result (λ stop. (h : AnyHeader) (trace : List AnyLine) (run : Run) → IsIssuing h self.old trace run clock command id
            → AppendsPrefix (K.written sink.old) (K.written sink.new) (flat_map spelled (latest h trace run (issue trace clock command (number_of id))))) }
        ensures commands { OnOk result (self.new.commands ≡ self.old.commands + 1) }
        ensures few { OnOk result (self.old.commands < 2200000000) }
        ensures tally { self.new.tally ≡ self.old.tally }
        ensures ahead { self.new.ahead ≡ self.old.ahead }
        ensures finished { finished_of self.new.coupled ≡ finished_of self.old.coupled }
        ensures faults_never_fall { K.faults sink.old ≤ K.faults sink.new }
        ensures faults_kept { OnOk result (K.faults sink.new ≡ K.faults sink.old) }
        ensures cause { IfErr result (WriteCause (K.faults sink.old) (K.faults sink.new)) }
    {
        reports::laws::takes_from_the_held();
        put_issued(clock, &command, sink)?;
        self.deliver(&command, id)?;
        self.commands += 1;
        self.last = clock;
        put_answers(&mut self.held, sink)
    }

    // Delivers the command that was issued, counts it, and notes what it found for the request that it serves.
    fn deliver(&mut self, command: &Command, id: Option<RequestId>) -> Result<(), Stop>
        requires issuing { (h : AnyHeader) × (trace : List AnyLine) × (run : Run) × (clock : ℕ) × IsIssuing h self.old trace run clock command.now id }
        ensures delivered { OnOk result ((h : AnyHeader) (trace : List AnyLine) (run : Run) (clock : ℕ) → IsIssuing h self.old trace run clock command.now id
            → IsDelivered h self.new trace run (issue trace clock command.now (number_of id))) }
        ensures stop { IfErr result (λ stop. stop ≡ Stop.OutOfMemory) }
        ensures commands { self.new.commands ≡ self.old.commands }
        ensures few { OnOk result (self.old.commands < 2200000000) }
        ensures tally { self.new.tally ≡ self.old.tally }
        ensures ahead { self.new.ahead ≡ self.old.ahead }
        ensures geometry_kept { self.new.g ≡ self.old.g }
        ensures from { from_of self.new.coupled ≡ from_of self.old.coupled }
        ensures until { until_of self.new.coupled ≡ until_of self.old.coupled }
        ensures finished { finished_of self.new.coupled ≡ finished_of self.old.coupled }
    {
        delivery_laws();
        match self.coupled.deliver(bytes_of(&self.held, id)) {
            Ok(reply) => {
                self.counts.note(command, reply.alert);
                note_outcome(&mut self.held, id, outcome(reply.line));
                Ok(())
            }
            Err(_) => Err(Stop::OutOfMemory),
        }
    }
}

// A command that a turn issues is one that words spell.
fn spelled_by_words(turn: &Turn)
    ensures { IsSpelled turn.now }
{
    match turn {
        Turn::Issue(_, command, _) => {
            encode(command);
        }
        Turn::Idle => {}
        Turn::Done => {}
    }
}

// The laws that a delivery rests on. It does nothing.
fn delivery_laws()
    ensures { DeliveryLaws }
{
    Coupled::agrees();
    scheduler::laws::limits();
    reports::laws::issues_a_command();
    reports::laws::gives_to_a_controller();
    reports::laws::gives_to_a_device();
    reports::laws::serves_by_columns();
    reports::laws::numbers_the_held();
    reports::laws::takes_from_the_held();
    reports::laws::answers_as_the_device();
}

// The bytes that the request with this number brings.
fn bytes_of(held: &RequestBuffer, id: Option<RequestId>) -> Option<&[u8; 64]>
    ensures { lent result ≡ bytes_at held.now (number_of id) }
{
    match id {
        Some(id) => match held.get(id.0) {
            Some(held) => held.bytes.as_ref(),
            None => None,
        },
        None => None,
    }
}

// What came of a request that was served.
fn outcome(found: Option<LineRead>) -> Outcome
    ensures { result ≡ outcome_with found }
{
    match found {
        Some(read) => Outcome::Found(read),
        None => Outcome::Wrote,
    }
}

// Notes what came of the request with this number, where there is one.
fn note_outcome(held: &mut RequestBuffer, id: Option<RequestId>, outcome: Outcome)
    requires { IfSome (number_of id) (λ number. Has held.old number) }
    ensures { held.new ≡ noted held.old (number_of id) outcome }
{
    match id {
        Some(id) => held.note(id.0, outcome),
        None => {}
    }
}

// Writes the C line of a command.
fn put_issued<K: Sink>(clock: Clock, command: &Command, sink: &mut K) -> Result<(), Stop>
    ensures whole { OnOk result (Appends (K.written sink.old) (K.written sink.new) (spelled (IssuedLine clock command.now))) }
    ensures writes_a_prefix { IfErr result (λ stop. AppendsPrefix (K.written sink.old) (K.written sink.new) (spelled (IssuedLine clock command.now))) }
    ensures faults_never_fall { K.faults sink.old ≤ K.faults sink.new }
    ensures faults_kept { OnOk result (K.faults sink.new ≡ K.faults sink.old) }
    ensures cause { IfErr result (WriteCause (K.faults sink.old) (K.faults sink.new)) }
{
    put_line(&ReportLine::Issued(clock, *command), sink)
}
