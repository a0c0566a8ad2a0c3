//! The auditor of some groups of rules, one line of a report after another.
ghost use Rattle.std.specs.Prelude.{ℕ, ◌≡◌, ◌≢◌, ◌<◌, ◌≤◌, [], false, true, IfOk};
ghost use Rattle.ddr_text.specs.AcceptedReport.{IsReportLine};
ghost use Rattle.speed_bin.specs.Counters.{acts};
ghost use Rattle.speed_bin.specs.Header.{IsAccepted, bound as bound_of, shape_of};
ghost use Rattle.speed_bin.specs.Log.{Log};
ghost use Rattle.speed_bin.specs.declared.header.Header.{Header as AnyHeader};
ghost use Rattle.log_auditor.specs.Auditing.{is_end};
ghost use Rattle.judged_logs.specs.declared.judged.Judged.{Judged as AnyJudged};
ghost use Rattle.judged_logs.specs.Auditing.{StandsFor, StandsForSome, Taken, geometry_of, has_ended, judged_of, verdict_so_far};

use crate::judge::Judge;
use crate::{Judged, Verdict};
use command_words::Geometry;
use ddr_io::OutOfMemory;
use ddr_text::ReportLine;
use speed_bin::Header;
use std::alloc::Global;
use std::marker::Model;

/// Judges the commands of a report by those rules of `docs/RULES.md` that it is told to judge, one line after another. A
/// rule that is left out is as one that always holds: the log goes on behind a command that breaks it. It keeps no list of
/// the commands, and yet there is one for which it stands as long as no judged rule is broken and no end was taken.
#[derive(Drop)]
pub struct Auditor {
    judge: Judge,
}

impl Model for Auditor {
    ghost use Rattle.judged_logs.specs.Auditing.{IsSound};
    ghost use Rattle.judged_logs.specs.declared.judge.Judge.{Judge};

    ghost Value = { Judge };

    ghost view = { λ a. a.judge };

    ghost invariant = { λ a. IsSound a.judge };
}

impl Auditor {
    /// With no line taken, and these rules judged.
    ///
    /// # Errors
    /// Want of memory.
    #[inline(never)]
    pub fn judging(alloc: Global, header: &Header, judged: Judged) -> Result<Auditor, OutOfMemory>
        requires { IsAccepted header.now }
        ensures stands { IfOk result (λ auditor. StandsFor auditor judged header.now []) }
        ensures geometry { IfOk result (λ auditor. geometry_of auditor ≡ shape_of header.now) }
        ensures judged { IfOk result (λ auditor. judged_of auditor ≡ judged) }
        ensures going_on { IfOk result (λ auditor. has_ended auditor ≡ false) }
    {
        Ok(Auditor {
            judge: Judge::new(alloc, header, judged)?,
        })
    }

    /// The shape of the subchannel, in which the numbers of the lines are.
    pub fn geometry(&self) -> Geometry
        ensures geometry { result ≡ geometry_of self.now }
        ensures shape { (j : AnyJudged) (h : AnyHeader) (log : Log) → StandsFor self.now j h log → result ≡ shape_of h }
    {
        self.judge.geometry()
    }

    /// Which rules are judged.
    pub fn judged(&self) -> Judged
        ensures judged { result ≡ judged_of self.now }
        ensures stands { (j : AnyJudged) (h : AnyHeader) (log : Log) → StandsFor self.now j h log → result ≡ j }
    {
        self.judge.judged()
    }

    /// Whether an E line was taken, and no judged rule was broken.
    pub fn has_ended(&self) -> bool
        ensures ended { result ≡ has_ended self.now }
        ensures going_on { (j : AnyJudged) (h : AnyHeader) (log : Log) → StandsFor self.now j h log → result ≡ false }

        // As long as no judged rule is broken and no end was taken, there is a log for which it stands.
        ensures stands { has_ended self.now ≡ false → verdict_so_far self.now ≡ Verdict.Fine → StandsForSome self.now }
    {
        self.judge.has_ended()
    }

    /// Takes the next line of a report, and says what holds of the log so far: a C line is its next place, and an E line
    /// its end. The answer is the least judged rule that fails at the first place where one fails; once one is broken,
    /// every later answer is the same. The numbers of the line are in the ranges of `docs/FORMATS.md`, and no E line was
    /// taken without fault before.
    pub fn take(&mut self, line: &ReportLine) -> Verdict
        requires going_on { has_ended self.old ≡ false }
        requires inside { IsReportLine (geometry_of self.old) line.now }
        ensures taken { (j : AnyJudged) (h : AnyHeader) (log : Log) → StandsFor self.old j h log → Taken line.now self.new j h log result }

        // A rule that is broken stays the answer.
        ensures so_far { result ≡ verdict_so_far self.new }
        ensures stays { verdict_so_far self.old ≢ Verdict.Fine → result ≡ verdict_so_far self.old }

        // Only an E line ends a log, and it does where no rule is broken.
        ensures ended { has_ended self.new ≡ true → is_end line.now ≡ true }
        ensures ends { is_end line.now ≡ true → result ≡ Verdict.Fine → has_ended self.new ≡ true }
        ensures geometry { geometry_of self.new ≡ geometry_of self.old }
        ensures judged { judged_of self.new ≡ judged_of self.old }

        // Where the alert is judged, no row of a log that was taken without fault has more activations since its last
        // mitigation than the bound.
        ensures bounded { (j : AnyJudged) (h : AnyHeader) (log : Log) (b row : ℕ) → StandsFor self.new j h log → j.backoff ≡ true → result ≡ Verdict.Fine
            → b < 32 → row < h.settings.rows → acts h b row log ≤ bound_of h }
    {
        self.judge.take(line)
    }
}
