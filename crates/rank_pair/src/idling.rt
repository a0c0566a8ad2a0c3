//! Idle lines.
ghost use Rattle.std.specs.Prelude.{◌≡◌, ◌≤◌, ◌<◌, ◌∷◌, ◌++◌, [], ℕ, Option, List, OnOk, IfErr};
ghost use Rattle.ddr_text.specs.Stop.{WriteCause};
ghost use Rattle.ddr_text.specs.declared.lines.TraceLine.TheVariants.{Idle};
ghost use Rattle.pair_deadlines.specs.Keeping.{Resting};
ghost use Rattle.pair_reports.specs.declared.rank_line.RankLine.{RankLine as AnyRankLine};
ghost use Rattle.rank_bus.specs.Standing.{now_of};
ghost use Rattle.speed_bin.specs.Header.{shape_of};
ghost use Rattle.speed_bin.specs.declared.header.Header.{Header as AnyHeader};
ghost use Rattle.rank_pair.specs.Accessing.{IsThere};
ghost use Rattle.rank_pair.specs.Idling.{IsDueAt, MayIdle, MayServeAt};
ghost use Rattle.rank_pair.specs.Job.{IsPairTrace};
ghost use Rattle.rank_pair.specs.Under.{IsCut, IsUnder, Mark};

use crate::deadline_laws::deadline_laws;
use crate::pair::Pair;
use ddr_io::Sink;
use ddr_text::Stop;
use rank_bus::Clock;

impl Pair {
    /// An I line: lets so many clocks pass, and serves both ranks at once and each time that a refresh falls due.
    pub(crate) fn idle<K: Sink>(&mut self, clocks: u64, sink: &mut K) -> Result<(), Stop>
        requires { MayIdle self.old clocks (K.written sink.old) }
        ensures idled { OnOk result ((h : AnyHeader) (front : List AnyRankLine) (it : AnyRankLine) (before : Option (List ℕ))
            → IsThere self.old h front Resting before (K.written sink.old) → it.line ≡ Idle clocks → IsPairTrace (shape_of h) (front ++ it ∷ [])
            → IsThere self.new h (front ++ it ∷ []) Resting before (K.written sink.new)) }
        ensures begins_a_report { IfErr result (λ stop. (h : AnyHeader) (front : List AnyRankLine) (it : AnyRankLine) (before : Option (List ℕ))
            → IsThere self.old h front Resting before (K.written sink.old) → it.line ≡ Idle clocks → IsPairTrace (shape_of h) (front ++ it ∷ [])
            → IsCut h (front ++ it ∷ []) before (K.written sink.new)) }
        ensures faults_kept { OnOk result (K.faults sink.new ≡ K.faults sink.old) }
        ensures cause { IfErr result (WriteCause (K.faults sink.old) (K.faults sink.new)) }
    {
        deadline_laws();
        let target = self.bus.now() + clocks;
        self.serve(sink)?;
        'waits: loop {
            let due = self.bus.next_due();
            if due > target {
                break;
            }
            self.serve_at(due, sink)?;
        }
        self.bus.wait(target);
        Ok(())
    }

    // Serves both ranks at the clock at which a refresh falls due, or now where that is later.
    fn serve_at<K: Sink>(&mut self, due: Clock, sink: &mut K) -> Result<(), Stop>
        requires { MayServeAt self.old due (K.written sink.old) }
        ensures served { OnOk result ((h : AnyHeader) (trace : List AnyRankLine) (mark : Mark) (until : ℕ) (before : Option (List ℕ))
            → IsUnder self.old h trace mark until Resting before (K.written sink.old) → due ≤ until → IsUnder self.new h trace mark until Resting before (K.written sink.new)) }
        ensures later { OnOk result (now_of self.old.bus < now_of self.new.bus) }
        ensures begins_a_report { IfErr result (λ stop. (h : AnyHeader) (trace : List AnyRankLine) (mark : Mark) (until : ℕ) (before : Option (List ℕ))
            → IsUnder self.old h trace mark until Resting before (K.written sink.old) → due ≤ until → IsCut h trace before (K.written sink.new)) }
        ensures faults_kept { OnOk result (K.faults sink.new ≡ K.faults sink.old) }
        ensures cause { IfErr result (WriteCause (K.faults sink.old) (K.faults sink.new)) }
    {
        deadline_laws();
        self.bus.wait(due);
        self.serve(sink)
    }
}
