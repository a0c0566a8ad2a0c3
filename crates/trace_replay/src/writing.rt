//! Writes the counts of a report.
ghost use Rattle.std.specs.Prelude.{◌≡◌, ◌≤◌, OnOk, IfErr};
ghost use Rattle.std.specs.List.{flat_map};
ghost use Rattle.std.specs.Io.KnownBytes.{Appends};
ghost use Rattle.ddr_io.specs.Sink.{AppendsPrefix};
ghost use Rattle.ddr_text.specs.Spelling.{spelled};
ghost use Rattle.reports.specs.Stats.{stat_lines};
ghost use Rattle.trace_replay.specs.Counts.{with_peak};
ghost use Rattle.ddr_text.specs.Stop.{WriteCause};

use crate::counts::Counts;
use ddr_io::Sink;
use ddr_text::{ReportLine, StatName, Stop, put_lines};
use error_scrub::ScrubCounts;

// The fourteen S lines.
#[tactic(auto, unfolding(reports::specs::Stats::stat_lines))]
fn lines_of(counts: &Counts, peak: u32, scrub: &ScrubCounts) -> [ReportLine; 14]
    ensures { result ≡ stat_lines (with_peak counts.now peak) scrub.now }
{
    [
        ReportLine::Stat(StatName::Act, counts.act),
        ReportLine::Stat(StatName::Rd, counts.rd),
        ReportLine::Stat(StatName::Wr, counts.wr),
        ReportLine::Stat(StatName::Pre, counts.pre),
        ReportLine::Stat(StatName::RefAb, counts.refab),
        ReportLine::Stat(StatName::RefSb, counts.refsb),
        ReportLine::Stat(StatName::RfmAb, counts.rfmab),
        ReportLine::Stat(StatName::RfmSb, counts.rfmsb),
        ReportLine::Stat(StatName::Ecs, counts.ecs),
        ReportLine::Stat(StatName::Alert, counts.alerts),
        ReportLine::Stat(StatName::Peak, u64::from(peak)),
        ReportLine::Stat(StatName::Found, scrub.found),
        ReportLine::Stat(StatName::Lost, scrub.lost),
        ReportLine::Stat(StatName::Worst, scrub.worst),
    ]
}

/// Writes the fourteen S lines.
pub(crate) fn put_stats<K: Sink>(
    counts: &Counts,
    peak: u32,
    scrub: &ScrubCounts,
    sink: &mut K,
) -> Result<(), Stop>
    ensures whole { OnOk result (Appends (K.written sink.old) (K.written sink.new) (flat_map spelled (stat_lines (with_peak counts.now peak) scrub.now))) }
    ensures writes_a_prefix { IfErr result (λ stop. AppendsPrefix (K.written sink.old) (K.written sink.new) (flat_map spelled (stat_lines (with_peak counts.now peak) scrub.now))) }
    ensures faults_never_fall { K.faults sink.old ≤ K.faults sink.new }
    ensures faults_kept { OnOk result (K.faults sink.new ≡ K.faults sink.old) }
    ensures cause { IfErr result (WriteCause (K.faults sink.old) (K.faults sink.new)) }
{
    put_lines(&lines_of(counts, peak, scrub), sink)
}
