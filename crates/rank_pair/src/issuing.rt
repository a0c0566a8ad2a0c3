//! Issuing a command: on the bus, to the device of its rank, and into the report.
ghost use Rattle.std.specs.Prelude.{◌≡◌, ◌≤◌, ℕ, Option, List, OnOk, IfErr};
ghost use Rattle.std.specs.List.{flat_map};
ghost use Rattle.std.specs.Io.KnownBytes.{Appends};
ghost use Rattle.ddr_io.specs.Sink.{AppendsPrefix};
ghost use Rattle.ddr_text.specs.Stop.{WriteCause};
ghost use Rattle.device_core.specs.Standing.{lent};
ghost use Rattle.pair_reports.specs.Report.{of_rank, spelled_for};
ghost use Rattle.pair_reports.specs.Runs.{PairRun};
ghost use Rattle.pair_reports.specs.declared.rank_line.RankLine.{RankLine as AnyRankLine};
ghost use Rattle.speed_bin.specs.declared.header.Header.{Header as AnyHeader};
ghost use Rattle.rank_pair.specs.Pairs.{IsCutOff, IsIssuable, IsIssued, MayIssue, bytes_with, lines_for, value_lines};

use crate::pair::{LineAccess, Pair};
use crate::putting::put_for;
use command_words::Command;
use ddr_io::Sink;
use ddr_text::{ReportLine, Stop};
use error_scrub::LineRead;
use rank_bus::{Clock, Rank};

impl Pair {
    /// Issues a command of this rank at its earliest clock, gives it to the rank's device, with the bytes of the access that it
    /// serves, and writes its C line, and behind that of an RD the D line of its access.
    pub(crate) fn issue<K: Sink>(
        &mut self,
        rank: Rank,
        command: &Command,
        access: &Option<LineAccess>,
        sink: &mut K,
    ) -> Result<(), Stop>
        requires { MayIssue self.old rank command.now access.now }
        ensures issued { OnOk result ((h : AnyHeader) (trace : List AnyRankLine) (run : PairRun) → IsIssuable self.old h trace run rank command.now access.now
            → IsIssued self.old self.new h trace run rank command.now access.now (K.written sink.old) (K.written sink.new)) }
        ensures begins_a_report { IfErr result (λ stop. (h : AnyHeader) (trace : List AnyRankLine) (run : PairRun) → IsIssuable self.old h trace run rank command.now access.now
            → IsCutOff self.old h trace run rank command.now access.now (K.written sink.old) (K.written sink.new)) }
        ensures faults_kept { OnOk result (K.faults sink.new ≡ K.faults sink.old) }
        ensures cause { IfErr result (WriteCause (K.faults sink.old) (K.faults sink.new)) }
    {
        reports::laws::answers_as_the_device();
        reports::laws::serves_by_columns();
        let clock = self.bus.issue(rank, command);
        match self.give(rank, clock, command, bytes_of(access)) {
            Ok(found) => put_command(rank, clock, command, access, &found, sink),
            Err(_) => Err(Stop::OutOfMemory),
        }
    }
}

// The bytes of an access, if it is a write.
fn bytes_of(access: &Option<LineAccess>) -> Option<&[u8; 64]>
    ensures { lent result ≡ bytes_with access.now }
{
    match access {
        Some(access) => access.bytes.as_ref(),
        None => None,
    }
}

// Writes the C line of a command, and the D line of the access that it answered.
fn put_command<K: Sink>(
    rank: Rank,
    clock: Clock,
    command: &Command,
    access: &Option<LineAccess>,
    found: &Option<LineRead>,
    sink: &mut K,
) -> Result<(), Stop>
    ensures whole { OnOk result (Appends (K.written sink.old) (K.written sink.new) (flat_map spelled_for (lines_for rank clock command.now access.now found.now))) }
    ensures writes_a_prefix { IfErr result (λ stop. AppendsPrefix (K.written sink.old) (K.written sink.new) (flat_map spelled_for (lines_for rank clock command.now access.now found.now))) }
    ensures faults_never_fall { K.faults sink.old ≤ K.faults sink.new }
    ensures faults_kept { OnOk result (K.faults sink.new ≡ K.faults sink.old) }
    ensures cause { IfErr result (WriteCause (K.faults sink.old) (K.faults sink.new)) }
{
    put_for(rank, &ReportLine::Issued(clock, *command), sink)?;
    put_answer(rank, access, found, sink)
}

// Writes the D line of an access that was answered, if one was.
fn put_answer<K: Sink>(
    rank: Rank,
    access: &Option<LineAccess>,
    found: &Option<LineRead>,
    sink: &mut K,
) -> Result<(), Stop>
    ensures whole { OnOk result (Appends (K.written sink.old) (K.written sink.new) (flat_map spelled_for (of_rank rank (value_lines access.now found.now)))) }
    ensures writes_a_prefix { IfErr result (λ stop. AppendsPrefix (K.written sink.old) (K.written sink.new) (flat_map spelled_for (of_rank rank (value_lines access.now found.now)))) }
    ensures faults_never_fall { K.faults sink.old ≤ K.faults sink.new }
    ensures faults_kept { OnOk result (K.faults sink.new ≡ K.faults sink.old) }
    ensures cause { IfErr result (WriteCause (K.faults sink.old) (K.faults sink.new)) }
{
    match access {
        Some(access) => match found {
            Some(read) => put_for(
                rank,
                &ReportLine::Value(access.number, access.line, read.bytes, read.state),
                sink,
            ),
            None => Ok(()),
        },
        None => Ok(()),
    }
}
