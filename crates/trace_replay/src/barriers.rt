//! What a replay does at an idle turn: the F or I line ahead is carried out, or no more requests come.
ghost use Rattle.std.specs.Prelude.{ℕ, ◌≡◌, ◌<◌, ◌≤◌, List, Option, IfErr, OnOk};
ghost use Rattle.speed_bin.specs.declared.header.Header.{Header as AnyHeader};
ghost use Rattle.ddr_io.specs.declared.line_reader.Line.{Line as AnyEnd};
ghost use Rattle.ddr_text.specs.declared.lines.TraceLine.{TraceLine as AnyLine};
ghost use Rattle.ddr_text.specs.declared.lines.TraceLine.TheVariants.{Flip as AnyFlip, Idle as AnyIdle};
ghost use Rattle.reports.specs.Runs.{Run};
ghost use Rattle.trace_replay.specs.Coupled.{finished_of};
ghost use Rattle.trace_replay.specs.ReplayState.{IsResting, IsUnder, IsAtRest, IsBegun, IsKnown, MayGoOn, left_of};
ghost use Rattle.ddr_text.specs.Stop.{WriteCause};

use crate::Coupled;
use crate::replay_state::{Ahead, ReplayState};
use command_words::{LineAddr, map_line};
use ddr_io::{OutOfMemory, Sink};
use ddr_text::{ReportLine, Stop, TraceLine, put_line};

impl ReplayState {
    // An idle turn: the line ahead is carried out, or no more requests come.
    pub(crate) fn pass<K: Sink>(&mut self, sink: &mut K) -> Result<(), Stop>
        requires rests { (h : AnyHeader) × (trace : List AnyLine) × (run : Run) × IsResting h self.old trace run }
        requires known { IsKnown self.old.ahead }
        ensures under { OnOk result ((h : AnyHeader) (start left before : Option (List ℕ)) → IsAtRest h self.old start left before (K.written sink.old)
            → IsUnder h self.new start left before (K.written sink.new)) }
        ensures begins_a_report { IfErr result (λ stop. (h : AnyHeader) (start left before : Option (List ℕ)) → IsAtRest h self.old start left before (K.written sink.old)
            → IsBegun h start before (K.written sink.new)) }
        ensures fewer { OnOk result (left_of self.new < left_of self.old) }
        ensures reader { (last : AnyEnd) → MayGoOn self.old.ahead last → MayGoOn self.new.ahead last }
        ensures faults_never_fall { K.faults sink.old ≤ K.faults sink.new }
        ensures faults_kept { OnOk result (K.faults sink.new ≡ K.faults sink.old) }
        ensures cause { IfErr result (WriteCause (K.faults sink.old) (K.faults sink.new)) }
    {
        reports::laws::carries_out_an_idle();
        reports::laws::takes_a_request();
        reports::laws::gives_to_a_controller();
        reports::laws::rests_on_the_lines_so_far();
        reports::laws::takes_from_the_held();
        match self.ahead {
            Ahead::NextLine(line) => self.pass_line(&line, sink),
            Ahead::Passes(clocks) => {
                self.take_line(clocks);
                Ok(())
            }
            Ahead::Unknown => Ok(()),
            Ahead::End => {
                self.coupled.finish();
                Ok(())
            }
            Ahead::Refused(_) => {
                self.coupled.finish();
                Ok(())
            }
        }
    }

    // Carries out the F or I line ahead.
    fn pass_line<K: Sink>(&mut self, line: &TraceLine, sink: &mut K) -> Result<(), Stop>
        requires rests { (h : AnyHeader) × (trace : List AnyLine) × (run : Run) × IsResting h self.old trace run }
        requires ahead { self.old.ahead ≡ Ahead.NextLine line.now }
        ensures under { OnOk result ((h : AnyHeader) (start left before : Option (List ℕ)) → IsAtRest h self.old start left before (K.written sink.old)
            → IsUnder h self.new start left before (K.written sink.new)) }
        ensures begins_a_report { IfErr result (λ stop. (h : AnyHeader) (start left before : Option (List ℕ)) → IsAtRest h self.old start left before (K.written sink.old)
            → IsBegun h start before (K.written sink.new)) }
        ensures fewer { OnOk result (left_of self.new < left_of self.old) }
        ensures reader { (last : AnyEnd) → MayGoOn self.old.ahead last → MayGoOn self.new.ahead last }
        ensures faults_never_fall { K.faults sink.old ≤ K.faults sink.new }
        ensures faults_kept { OnOk result (K.faults sink.new ≡ K.faults sink.old) }
        ensures cause { IfErr result (WriteCause (K.faults sink.old) (K.faults sink.new)) }
    {
        match line {
            TraceLine::Flip(line, device, bit) => self.flip(*line, *device, *bit, sink),
            TraceLine::Idle(clocks) => {
                self.idle(*clocks);
                Ok(())
            }
            TraceLine::Read(_) => Ok(()),
            TraceLine::Write(_, _) => Ok(()),
        }
    }

    // Lets the clocks of the I line ahead pass.
    fn idle(&mut self, clocks: u64)
        requires rests { (h : AnyHeader) × (trace : List AnyLine) × (run : Run) × IsResting h self.old trace run }
        requires ahead { self.old.ahead ≡ Ahead.NextLine (AnyIdle clocks) }
        ensures under { (h : AnyHeader) (start left before written : Option (List ℕ)) → IsAtRest h self.old start left before written
            → IsUnder h self.new start left before written }
        ensures ahead { self.new.ahead ≡ Ahead.Passes clocks }
        ensures tally { self.new.tally ≡ self.old.tally }
        ensures commands { self.new.commands ≡ self.old.commands }
        ensures finished { finished_of self.new.coupled ≡ finished_of self.old.coupled }
    {
        reports::laws::begins_a_run();
        Coupled::agrees();
        scheduler::laws::limits();
        self.coupled.idle(clocks);
        self.ahead = Ahead::Passes(clocks);
    }

    // Turns the stored bit of the F line ahead, and writes its F line.
    fn flip<K: Sink>(
        &mut self,
        line: LineAddr,
        device: u8,
        bit: u8,
        sink: &mut K,
    ) -> Result<(), Stop>
        requires rests { (h : AnyHeader) × (trace : List AnyLine) × (run : Run) × IsResting h self.old trace run }
        requires ahead { self.old.ahead ≡ Ahead.NextLine (AnyFlip line device bit) }
        ensures under { OnOk result ((h : AnyHeader) (start left before : Option (List ℕ)) → IsAtRest h self.old start left before (K.written sink.old)
            → IsUnder h self.new start left before (K.written sink.new)) }
        ensures begins_a_report { IfErr result (λ stop. (h : AnyHeader) (start left before : Option (List ℕ)) → IsAtRest h self.old start left before (K.written sink.old)
            → IsBegun h start before (K.written sink.new)) }
        ensures fewer { OnOk result (left_of self.new < left_of self.old) }
        ensures reader { (last : AnyEnd) → MayGoOn self.old.ahead last → MayGoOn self.new.ahead last }
        ensures faults_never_fall { K.faults sink.old ≤ K.faults sink.new }
        ensures faults_kept { OnOk result (K.faults sink.new ≡ K.faults sink.old) }
        ensures cause { IfErr result (WriteCause (K.faults sink.old) (K.faults sink.new)) }
    {
        reports::laws::carries_out_a_flip();
        reports::laws::takes_a_request();
        reports::laws::gives_to_a_controller();
        reports::laws::gives_to_a_device();
        reports::laws::rests_on_the_lines_so_far();
        reports::laws::takes_from_the_held();
        Coupled::agrees();
        match self.coupled.flip(map_line(line, self.g), device, bit) {
            Ok(()) => {
                self.take_line(0);
                put_line(&ReportLine::Flip(self.last, line, device, bit), sink)
            }
            Err(_) => Err(Stop::OutOfMemory),
        }
    }
}
