//! What ends a report.
ghost use Rattle.std.specs.Prelude.{◌≡◌, ◌≤◌, ◌∷◌, OnOk, IfErr};
ghost use Rattle.std.specs.List.{flat_map};
ghost use Rattle.std.specs.Io.KnownBytes.{Appends};
ghost use Rattle.ddr_io.specs.Sink.{AppendsPrefix};
ghost use Rattle.ddr_text.specs.Spelling.{spelled};
ghost use Rattle.ddr_text.specs.declared.lines.ReportLine.TheVariants.{End as EndLine};
ghost use Rattle.trace_replay.specs.Ending.{end_lines, refused_line};
ghost use Rattle.ddr_text.specs.Stop.{WriteCause};

use crate::counts::Counts;
use crate::writing::put_stats;
use ddr_io::Sink;
use ddr_text::{ReportLine, Stop, put_line};
use error_scrub::ScrubCounts;
use scheduler::Clock;

/// What ends a report: the counts of its S lines, the clock of its E line, and the number of the trace line that was
/// refused, if one was, with the reason.
#[derive(Clone, Copy, Debug, PartialEq, Eq)]
pub struct Ending {
    pub counts: Counts,
    pub peak: u32,
    pub scrub: ScrubCounts,
    pub clock: Clock,
    pub refusal: Option<(u64, u8)>,
}

impl Ending {
    /// Writes the S lines, the E line, and an X line where a line of the trace was refused.
    pub fn write<K: Sink>(&self, sink: &mut K) -> Result<(), Stop>
        ensures whole { OnOk result (Appends (K.written sink.old) (K.written sink.new) (flat_map spelled (end_lines self.now))) }
        ensures writes_a_prefix { IfErr result (λ stop. AppendsPrefix (K.written sink.old) (K.written sink.new) (flat_map spelled (end_lines self.now))) }
        ensures faults_never_fall { K.faults sink.old ≤ K.faults sink.new }
        ensures faults_kept { OnOk result (K.faults sink.new ≡ K.faults sink.old) }
        ensures cause { IfErr result (WriteCause (K.faults sink.old) (K.faults sink.new)) }
    {
        put_stats(&self.counts, self.peak, &self.scrub, sink)?;
        put_end(self.clock, self.refusal, sink)
    }
}

// Writes the E line, and the X line of a refusal.
fn put_end<K: Sink>(clock: Clock, refusal: Option<(u64, u8)>, sink: &mut K) -> Result<(), Stop>
    ensures whole { OnOk result (Appends (K.written sink.old) (K.written sink.new) (flat_map spelled (EndLine clock ∷ refused_line refusal))) }
    ensures writes_a_prefix { IfErr result (λ stop. AppendsPrefix (K.written sink.old) (K.written sink.new) (flat_map spelled (EndLine clock ∷ refused_line refusal))) }
    ensures faults_never_fall { K.faults sink.old ≤ K.faults sink.new }
    ensures faults_kept { OnOk result (K.faults sink.new ≡ K.faults sink.old) }
    ensures cause { IfErr result (WriteCause (K.faults sink.old) (K.faults sink.new)) }
{
    put_line(&ReportLine::End(clock), sink)?;
    put_refusal(refusal, sink)
}

// Writes the X line of a refusal.
fn put_refusal<K: Sink>(refusal: Option<(u64, u8)>, sink: &mut K) -> Result<(), Stop>
    ensures whole { OnOk result (Appends (K.written sink.old) (K.written sink.new) (flat_map spelled (refused_line refusal))) }
    ensures writes_a_prefix { IfErr result (λ stop. AppendsPrefix (K.written sink.old) (K.written sink.new) (flat_map spelled (refused_line refusal))) }
    ensures faults_never_fall { K.faults sink.old ≤ K.faults sink.new }
    ensures faults_kept { OnOk result (K.faults sink.new ≡ K.faults sink.old) }
    ensures cause { IfErr result (WriteCause (K.faults sink.old) (K.faults sink.new)) }
{
    match refusal {
        Some((line, reason)) => put_line(&ReportLine::Refused(line, reason), sink),
        None => Ok(()),
    }
}
