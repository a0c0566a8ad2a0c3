//! The top call.
ghost use Rattle.std.specs.Prelude.{ℕ, ◌≡◌, ◌≢◌, ◌↔◌, List, Some, None};
ghost use Rattle.ddr_io.specs.Faults.{Rose};
ghost use Rattle.ddr_text.specs.declared.lines.TraceLine.{TraceLine};
ghost use Rattle.speed_bin.specs.declared.header.Header.{Header};
ghost use Rattle.trace_replay.specs.Job.{IsJobOf};
ghost use Rattle.trace_replay.specs.Replay.{Answers};
ghost use Rattle.log_auditor.specs.Findings.{Answers as AuditAnswers};
ghost use Rattle.made_jobs.specs.Made.{made};
ghost use Rattle.made_jobs.specs.Writing.{Writes};
ghost use Rattle.ddr_cli.specs.Made.{MadeAnswers};
ghost use Rattle.ddr_cli.specs.Shown.{ShowAnswers};
ghost use Rattle.ddr_cli.specs.Upgraded.{UpgradeAnswers};
ghost use Rattle.ddr_cli.specs.Words.{AskForPorts, AskForRules, IsAudit, IsExec, IsGen, IsGenRun, IsListed, IsMerge, IsPair, IsPorts, IsReplay, IsShow, IsSpare, IsUpgrade, Makes};
ghost use Rattle.ddr_text.specs.Opening.{Accepts, opening_of};
ghost use Rattle.ddr_text.specs.Outcome.{AnswersAs};
ghost use Rattle.device_exec.specs.Executed.{IsExecuted, four_devices};
ghost use Rattle.device_exec.specs.Promises.{IsFlawless, IsUnblamed, IsWithinBound, JudgesInOrder, ReadsWell};
ghost use Rattle.fair_queue.specs.Answering.{MergeAnswers};
ghost use Rattle.fair_queue.specs.Arrivals.{input_of};
ghost use Rattle.fair_queue.specs.Serving.{PortsAnswers};
ghost use Rattle.fair_queue.specs.Turns.{IsFair};
ghost use Rattle.pair_reports.specs.declared.rank_line.RankLine.{RankLine};
ghost use Rattle.rank_pair.specs.Answers.{PairAnswers};
ghost use Rattle.rank_pair.specs.Job.{IsPairJobOf};
ghost use Rattle.spare_device.specs.Promises.{ReadsWell as ReadsWellWithout};
ghost use Rattle.spare_device.specs.Spared.{IsSpared, five_devices};

use crate::made_run::run_made;
use crate::showing::show;
use crate::upgrading::upgrade;
use crate::{Form, form_of};
use ddr_io::{Sink, Source, Status};
use device_exec::exec;
use fair_queue::{merge, ports};
use log_auditor::audit;
use made_jobs::write_job;
use rank_pair::run_pair;
use spare_device::spare;
use std::alloc::Global;
use trace_replay::replay;

/// Does all that the program does, but for the flush of what it wrote. `words` are those of the
/// command line, without the program's name.
pub fn run<S: Source, K: Sink>(
    alloc: Global,
    words: &[String],
    source: &mut S,
    sink: &mut K,
) -> Status
    ensures usage { (result ≡ Status.Usage) ↔ (¬ IsListed words.now) }
    ensures unread { result ≡ Status.Usage → source.new ≡ source.old }
    ensures unwritten { result ≡ Status.Usage → sink.new ≡ sink.old }

    // With the word `replay`: the job in the bytes that were read, the report in those that were written.
    ensures replayed { IsReplay words.now → Answers result (record { had = S.left source.old; left = S.left source.new; written_before = K.written sink.old; written_after = K.written sink.new }) }

    // A job with nothing to refuse is not refused.
    ensures complete { (bytes : List ℕ) (h : Header) (text : List ℕ) (trace : List TraceLine) → IsReplay words.now
        → S.left source.old ≡ Some bytes → IsJobOf (Some bytes) h text trace None → result ≢ Status.Refused }

    // With the word `audit`: the verdict on the report in the bytes that were read.
    ensures audited { IsAudit words.now → AuditAnswers result (record { had = S.left source.old; left = S.left source.new; written_before = K.written sink.old; written_after = K.written sink.new }) }

    // With the word `show`: its commands in readable form.
    ensures shown { IsShow words.now → ShowAnswers result (record { had = S.left source.old; left = S.left source.new; written_before = K.written sink.old; written_after = K.written sink.new }) }

    // With the word `upgrade`: the report in version 2.
    ensures upgraded { IsUpgrade words.now → UpgradeAnswers result (record { had = S.left source.old; left = S.left source.new; written_before = K.written sink.old; written_after = K.written sink.new }) }

    // With the word `gen`: the made job.
    ensures made { (seed requests : ℕ) → IsGen words.now seed requests → Writes result (K.written sink.old) (K.written sink.new) (made seed requests) }

    // With the words `gen run`: the end of the report of that job.
    ensures made_run { (seed requests : ℕ) → IsGenRun words.now seed requests → MadeAnswers result seed requests (K.written sink.old) (K.written sink.new) }

    // Where a job is made, nothing is read.
    ensures made_unread { Makes words.now → source.new ≡ source.old }

    // With the word `merge` and a cap: the merged job of four ports.
    ensures merged { (cap : ℕ) → IsMerge words.now cap → MergeAnswers cap result (record { had = S.left source.old; left = S.left source.new; written_before = K.written sink.old; written_after = K.written sink.new }) }

    // With the word `ports` and a cap: the report of that job, with the headline's promise and that of the cap.
    ensures ported { (cap : ℕ) → IsPorts words.now cap → PortsAnswers cap result (record { had = S.left source.old; left = S.left source.new; written_before = K.written sink.old; written_after = K.written sink.new }) }

    // With either: each port's rests stand in their order, each once, and the ports take turns.
    ensures fair { (h : Header) (bytes text rest : List ℕ) → AskForPorts words.now → S.left source.old ≡ Some bytes → opening_of bytes ≡ Accepts h text rest
        → IsFair (input_of rest).lines }

    // With the word `exec`: what a device makes of the script in the bytes that were read.
    ensures executed { IsExec words.now → AnswersAs (IsExecuted (S.left source.old)) result (record { had = S.left source.old; left = S.left source.new; written_before = K.written sink.old; written_after = K.written sink.new }) }

    // Whoever made the script: its lines are judged in their order by the rules alone, its reads are those of plain memory where
    // few bits were turned, and no row has more activations than the bound.
    ensures exec_judged { (bytes rest text : List ℕ) (h : Header) → IsExec words.now → S.left source.old ≡ Some bytes → opening_of bytes ≡ Accepts h text rest
        → JudgesInOrder four_devices h rest }
    ensures exec_reads { (bytes rest text : List ℕ) (h : Header) → IsExec words.now → S.left source.old ≡ Some bytes → opening_of bytes ≡ Accepts h text rest
        → ReadsWell h rest }
    ensures exec_bounded { (bytes rest text : List ℕ) (h : Header) → IsExec words.now → S.left source.old ≡ Some bytes → opening_of bytes ≡ Accepts h text rest
        → IsWithinBound h rest }

    // A script with nothing to refuse and no broken rule is neither refused nor broken.
    ensures exec_complete { (bytes rest text : List ℕ) (h : Header) (clock : ℕ) → IsExec words.now → S.left source.old ≡ Some bytes
        → opening_of bytes ≡ Accepts h text rest → IsFlawless four_devices h rest clock → IsUnblamed result }

    // With the word `spare` and a dead device: what five devices make of the script, of which that one is not read.
    ensures spared { (dead : ℕ) → IsSpare words.now dead → AnswersAs (IsSpared dead (S.left source.old)) result (record { had = S.left source.old; left = S.left source.new; written_before = K.written sink.old; written_after = K.written sink.new }) }

    // Whoever made the script: its lines are judged in their order by the rules alone, and its reads are those of plain memory
    // where few bits were turned in the live devices, whatever was turned in the dead one.
    ensures spare_judged { (dead : ℕ) (bytes rest text : List ℕ) (h : Header) → IsSpare words.now dead → S.left source.old ≡ Some bytes → opening_of bytes ≡ Accepts h text rest
        → JudgesInOrder (five_devices dead) h rest }
    ensures spare_reads { (dead : ℕ) (bytes rest text : List ℕ) (h : Header) → IsSpare words.now dead → S.left source.old ≡ Some bytes → opening_of bytes ≡ Accepts h text rest
        → ReadsWellWithout dead h rest }

    // A script with nothing to refuse and no broken rule is neither refused nor broken.
    ensures spare_complete { (dead : ℕ) (bytes rest text : List ℕ) (h : Header) (clock : ℕ) → IsSpare words.now dead → S.left source.old ≡ Some bytes
        → opening_of bytes ≡ Accepts h text rest → IsFlawless (five_devices dead) h rest clock → IsUnblamed result }

    // With the word `pair`: the report of the job for two ranks in the bytes that were read, with what it promises.
    ensures paired { IsPair words.now → PairAnswers result (S.left source.old) (S.left source.new) (K.written sink.old) (K.written sink.new) }

    // A job for two ranks with nothing to refuse is not refused.
    ensures pair_complete { (bytes : List ℕ) (h : Header) (text : List ℕ) (trace : List RankLine) → IsPair words.now
        → S.left source.old ≡ Some bytes → IsPairJobOf (Some bytes) h text trace None → result ≢ Status.Refused }

    // A fault is told where it was counted.
    ensures read { result ≡ Status.ReadFault → Rose (S.faults source.old) (S.faults source.new) }
    ensures write { result ≡ Status.WriteFault → Rose (K.faults sink.old) (K.faults sink.new) }
    ensures broken { result ≡ Status.Broken → AskForRules words.now }

    // No fault is passed over: only a read fault leaves another count of the source, and only a write fault one of the sink.
    ensures reads_kept { result ≢ Status.ReadFault → S.faults source.new ≡ S.faults source.old }
    ensures writes_kept { result ≢ Status.WriteFault → K.faults sink.new ≡ K.faults sink.old }
{
    match form_of(words) {
        Some(Form::Replay) => replay(alloc, source, sink),
        Some(Form::Audit) => audit(alloc, source, sink),
        Some(Form::Show) => show(alloc, source, sink),
        Some(Form::Upgrade) => upgrade(alloc, source, sink),
        Some(Form::Gen(seed, requests)) => write_job(seed, requests, sink),
        Some(Form::GenRun(seed, requests)) => run_made(alloc, seed, requests, sink),
        Some(Form::Ports(cap)) => ports(alloc, cap, source, sink),
        Some(Form::Merge(cap)) => merge(alloc, cap, source, sink),
        Some(Form::Exec) => exec(alloc, source, sink),
        Some(Form::Spare(dead)) => spare(alloc, dead, source, sink),
        Some(Form::Pair) => run_pair(alloc, source, sink),
        None => Status::Usage,
    }
}
