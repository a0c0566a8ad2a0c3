//! The lines of a trace, carried out one after another.
ghost use Rattle.std.specs.Prelude.{◌≡◌, ◌+◌, ◌∷◌, ◌++◌, [], ℕ, Option, Some, None, List, length, OnOk, IfErr};
ghost use Rattle.ddr_text.specs.Stop.{WriteCause};
ghost use Rattle.ddr_text.specs.declared.lines.TraceLine.TheVariants.{Flip, Idle};
ghost use Rattle.pair_deadlines.specs.Keeping.{Resting};
ghost use Rattle.pair_reports.specs.declared.rank_line.RankLine.{RankLine as AnyRankLine};
ghost use Rattle.speed_bin.specs.Header.{shape_of};
ghost use Rattle.speed_bin.specs.declared.header.Header.{Header as AnyHeader};
ghost use Rattle.rank_pair.specs.Accessing.{Asks, IsThere, MayAccess, MayCarryOut};
ghost use Rattle.rank_pair.specs.Flipping.{MayFlip};
ghost use Rattle.rank_pair.specs.Idling.{MayIdle};
ghost use Rattle.rank_pair.specs.Job.{IsPairTrace};
ghost use Rattle.rank_pair.specs.Under.{IsCut};

use crate::pair::{LineAccess, Pair};
use command_words::LineAddr;
use ddr_io::Sink;
use ddr_text::{Stop, TraceLine};
use pair_reports::RankLine;
use rank_bus::Rank;

impl Pair {
    /// Carries out the line with this number, and then the service that stands before the next one or before the end.
    pub(crate) fn carry_out<K: Sink>(
        &mut self,
        number: u64,
        it: &RankLine,
        sink: &mut K,
    ) -> Result<(), Stop>
        requires { MayCarryOut self.old it.now number (K.written sink.old) }
        ensures done { OnOk result ((h : AnyHeader) (front : List AnyRankLine) (before : Option (List ℕ))
            → IsThere self.old h front Resting before (K.written sink.old) → IsPairTrace (shape_of h) (front ++ it.now ∷ []) → number ≡ length front + 1
            → IsThere self.new h (front ++ it.now ∷ []) Resting before (K.written sink.new)) }
        ensures begins_a_report { IfErr result (λ stop. (h : AnyHeader) (front : List AnyRankLine) (before : Option (List ℕ))
            → IsThere self.old h front Resting before (K.written sink.old) → IsPairTrace (shape_of h) (front ++ it.now ∷ []) → number ≡ length front + 1
            → IsCut h (front ++ it.now ∷ []) before (K.written sink.new)) }
        ensures faults_kept { OnOk result (K.faults sink.new ≡ K.faults sink.old) }
        ensures cause { IfErr result (WriteCause (K.faults sink.old) (K.faults sink.new)) }
    {
        match &it.line {
            TraceLine::Read(line) => self.request(it.rank, &read_of(number, *line), sink),
            TraceLine::Write(line, bytes) => {
                self.request(it.rank, &write_of(number, *line, bytes), sink)
            }
            TraceLine::Flip(line, device, bit) => {
                self.flip_between(it.rank, *line, *device, *bit, sink)
            }
            TraceLine::Idle(clocks) => self.idle_between(*clocks, sink),
        }
    }

    // A request, and the service behind it.
    fn request<K: Sink>(
        &mut self,
        rank: Rank,
        access: &LineAccess,
        sink: &mut K,
    ) -> Result<(), Stop>
        requires { MayAccess self.old rank access.now (K.written sink.old) }
        ensures done { OnOk result ((h : AnyHeader) (front : List AnyRankLine) (it : AnyRankLine) (before : Option (List ℕ))
            → IsThere self.old h front Resting before (K.written sink.old) → Asks h front it rank access.now
            → IsThere self.new h (front ++ it ∷ []) Resting before (K.written sink.new)) }
        ensures begins_a_report { IfErr result (λ stop. (h : AnyHeader) (front : List AnyRankLine) (it : AnyRankLine) (before : Option (List ℕ))
            → IsThere self.old h front Resting before (K.written sink.old) → Asks h front it rank access.now
            → IsCut h (front ++ it ∷ []) before (K.written sink.new)) }
        ensures faults_kept { OnOk result (K.faults sink.new ≡ K.faults sink.old) }
        ensures cause { IfErr result (WriteCause (K.faults sink.old) (K.faults sink.new)) }
    {
        self.access(rank, access, sink)?;
        self.serve_behind(rank, sink)
    }

    // An F line, and the service behind it.
    fn flip_between<K: Sink>(
        &mut self,
        rank: Rank,
        line: LineAddr,
        device: u8,
        bit: u8,
        sink: &mut K,
    ) -> Result<(), Stop>
        requires { MayFlip self.old rank line device bit (K.written sink.old) }
        ensures done { OnOk result ((h : AnyHeader) (front : List AnyRankLine) (it : AnyRankLine) (before : Option (List ℕ))
            → IsThere self.old h front Resting before (K.written sink.old) → it ≡ record { rank = rank; line = Flip line device bit }
            → IsPairTrace (shape_of h) (front ++ it ∷ []) → IsThere self.new h (front ++ it ∷ []) Resting before (K.written sink.new)) }
        ensures begins_a_report { IfErr result (λ stop. (h : AnyHeader) (front : List AnyRankLine) (it : AnyRankLine) (before : Option (List ℕ))
            → IsThere self.old h front Resting before (K.written sink.old) → it ≡ record { rank = rank; line = Flip line device bit }
            → IsPairTrace (shape_of h) (front ++ it ∷ []) → IsCut h (front ++ it ∷ []) before (K.written sink.new)) }
        ensures faults_kept { OnOk result (K.faults sink.new ≡ K.faults sink.old) }
        ensures cause { IfErr result (WriteCause (K.faults sink.old) (K.faults sink.new)) }
    {
        self.flip(rank, line, device, bit, sink)?;
        self.serve(sink)
    }

    // An I line, and the service behind it.
    fn idle_between<K: Sink>(&mut self, clocks: u64, sink: &mut K) -> Result<(), Stop>
        requires { MayIdle self.old clocks (K.written sink.old) }
        ensures done { OnOk result ((h : AnyHeader) (front : List AnyRankLine) (it : AnyRankLine) (before : Option (List ℕ))
            → IsThere self.old h front Resting before (K.written sink.old) → it.line ≡ Idle clocks → IsPairTrace (shape_of h) (front ++ it ∷ [])
            → IsThere self.new h (front ++ it ∷ []) Resting before (K.written sink.new)) }
        ensures begins_a_report { IfErr result (λ stop. (h : AnyHeader) (front : List AnyRankLine) (it : AnyRankLine) (before : Option (List ℕ))
            → IsThere self.old h front Resting before (K.written sink.old) → it.line ≡ Idle clocks → IsPairTrace (shape_of h) (front ++ it ∷ [])
            → IsCut h (front ++ it ∷ []) before (K.written sink.new)) }
        ensures faults_kept { OnOk result (K.faults sink.new ≡ K.faults sink.old) }
        ensures cause { IfErr result (WriteCause (K.faults sink.old) (K.faults sink.new)) }
    {
        self.idle(clocks, sink)?;
        self.serve(sink)
    }
}

// What an R line asks for.
fn read_of(number: u64, line: LineAddr) -> LineAccess
    ensures { result ≡ record { number = number; line = line; bytes = None } }
{
    LineAccess {
        number,
        line,
        bytes: None,
    }
}

// What a W line asks for.
fn write_of(number: u64, line: LineAddr, bytes: &[u8; 64]) -> LineAccess
    ensures { result ≡ record { number = number; line = line; bytes = Some bytes.now } }
{
    LineAccess {
        number,
        line,
        bytes: Some(*bytes),
    }
}
