//! The S lines of a report.
ghost use Rattle.std.specs.Prelude.{◌≡◌};
ghost use Rattle.reports.specs.Stats.{stat_lines as lines_of};
ghost use Rattle.log_counts.specs.Counts.{with_peak};

use crate::Counts;
use ddr_text::{ReportLine, StatName};
use error_scrub::ScrubCounts;

/// The fourteen S lines: those of the counts, of the greatest number of activations that a row had, and of the scrub.
#[tactic(auto, unfolding(reports::specs::Stats::stat_lines))]
pub fn stat_lines(counts: &Counts, peak: u32, scrub: &ScrubCounts) -> [ReportLine; 14]
    ensures { result ≡ lines_of (with_peak counts.now peak) scrub.now }
{
    [
        ReportLine::Stat(StatName::Act, counts.act),
        ReportLine::Stat(StatName::Rd, counts.rd),
        ReportLine::Stat(StatName::Wr, counts.wr),
        ReportLine::Stat(StatName::Pre, counts.pre),
        ReportLine::Stat(StatName::RefAb, counts.refab),
        ReportLine::Stat(StatName::RefSb, counts.refsb),
        ReportLine::Stat(StatName::RfmAb, counts.rfmab),
        ReportLine::Stat(StatName::RfmSb, counts.rfmsb),
        ReportLine::Stat(StatName::Ecs, counts.ecs),
        ReportLine::Stat(StatName::Alert, counts.alerts),
        ReportLine::Stat(StatName::Peak, u64::from(peak)),
        ReportLine::Stat(StatName::Found, scrub.found),
        ReportLine::Stat(StatName::Lost, scrub.lost),
        ReportLine::Stat(StatName::Worst, scrub.worst),
    ]
}
