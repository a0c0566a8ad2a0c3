//! What an audit finds, and the line that it writes.
ghost use Rattle.std.specs.Prelude.{◌≡◌, []};
ghost use Rattle.log_auditor.specs.Findings.{broken_text, finding_text, is_fine, status_of};

use crate::Rule;
use arrayvec::ArrayVec;
use ddr_io::Status;
use ddr_text::{ReportLine, put_spaced, put_text, write_report_line};

/// What is found in a report. Lines are counted from 1 behind its opening; 0 is the header.
#[derive(Clone, Copy, Debug, PartialEq, Eq)]
pub(crate) enum Finding {
    /// It is well formed, and its log satisfies the rules.
    Fine,
    /// It is well formed, and this is the first line at which a rule fails, and the least rule there.
    Broken(u64, Rule),
    /// This line is refused, for this reason.
    Refused(u64, u8),
}

impl Finding {
    pub(crate) fn is_fine(self) -> bool
        ensures { result ≡ is_fine self }
    {
        match self {
            Finding::Fine => true,
            Finding::Broken(_, _) => false,
            Finding::Refused(_, _) => false,
        }
    }

    // The status of an audit that finds this.
    pub(crate) fn status(self) -> Status
        ensures { result ≡ status_of self }
    {
        match self {
            Finding::Fine => Status::Ok,
            Finding::Broken(_, _) => Status::Broken,
            Finding::Refused(_, _) => Status::Refused,
        }
    }

    // Appends the one line of an audit.
    #[tactic(auto, unfolding(crate::specs::Findings::finding_text))]
    pub(crate) fn spell(self, out: &mut ArrayVec<u8, 512>)
        requires { out.old.items ≡ [] }
        ensures { out.new.items ≡ finding_text self }
    {
        match self {
            Finding::Fine => put_text(b"A ok\n", out),
            Finding::Broken(line, rule) => put_broken(line, rule, out),
            Finding::Refused(line, reason) => write_report_line(
                &ReportLine::Refused(line, reason),
                out,
            ),
        }
    }
}

/// Appends the line that says that this rule is broken at the line with this number.
#[tactic(auto, unfolding(crate::specs::Findings::broken_text))]
pub fn put_broken(line: u64, rule: Rule, out: &mut ArrayVec<u8, 512>)
    requires { out.old.items ≡ [] }
    ensures { out.new.items ≡ broken_text line rule.0 }
{
    put_text(b"A broken", out);
    put_spaced(line, out);
    put_spaced(u64::from(rule.0), out);
    put_text(b"\n", out);
}
