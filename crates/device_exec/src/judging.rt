//! Judging the commands of a script.
ghost use Rattle.std.specs.Prelude.{ℕ, ◌≡◌, ◌∷◌, Option};
ghost use Rattle.ddr_text.specs.AcceptedReport.{IsReportLine};
ghost use Rattle.ddr_text.specs.declared.lines.ReportLine.{ReportLine};
ghost use Rattle.log_auditor.specs.Auditing.{geometry_of};
ghost use Rattle.speed_bin.specs.Log.{Log};
ghost use Rattle.speed_bin.specs.declared.header.Header.{Header as AnyHeader};
ghost use Rattle.device_exec.specs.Standing.{IsFine, IsFineForSome, Judges, JudgesEnd};

use command_words::Command;
use ddr_text::ReportLine;
use log_auditor::{Auditor, Rule, Verdict};

/// Judges a command behind a log that breaks no rule: the least rule that it breaks, if it breaks one.
pub fn judge(auditor: &mut Auditor, clock: u64, command: Command) -> Option<Rule>
    requires inside { IsReportLine (geometry_of auditor.old) (ReportLine.Issued clock command) }
    requires fine { IsFineForSome auditor.old }
    ensures judged { (h : AnyHeader) (log : Log) → IsFine auditor.old h log → Judges result auditor.new h clock command log }
    ensures geometry { geometry_of auditor.new ≡ geometry_of auditor.old }
{
    match auditor.take(&ReportLine::Issued(clock, command)) {
        Verdict::Fine => None,
        Verdict::Breaks(rule) => Some(rule),
    }
}

/// Judges an end at this clock behind a log that breaks no rule: the least rule that it breaks, if it breaks one.
pub fn judge_end(auditor: &mut Auditor, clock: u64) -> Option<Rule>
    requires inside { IsReportLine (geometry_of auditor.old) (ReportLine.End clock) }
    requires fine { IsFineForSome auditor.old }
    ensures judged { (h : AnyHeader) (log : Log) → IsFine auditor.old h log → JudgesEnd result h clock log }
    ensures geometry { geometry_of auditor.new ≡ geometry_of auditor.old }
{
    match auditor.take(&ReportLine::End(clock)) {
        Verdict::Fine => None,
        Verdict::Breaks(rule) => Some(rule),
    }
}
