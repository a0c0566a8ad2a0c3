//! Requests: each opens its row, reads or writes, and closes its bank.
ghost use Rattle.std.specs.Prelude.{◌≡◌, ◌<◌, ◌∷◌, ◌++◌, [], ℕ, Option, List, OnOk, IfErr};
ghost use Rattle.command_words.specs.Geometry.{lines_of};
ghost use Rattle.command_words.specs.Place.{line_of, place_of};
ghost use Rattle.command_words.specs.declared.command.Command.TheVariants.{Act, PrePb};
ghost use Rattle.ddr_text.specs.Stop.{WriteCause};
ghost use Rattle.pair_deadlines.specs.Keeping.{Closed, Resting};
ghost use Rattle.pair_reports.specs.declared.rank_line.RankLine.{RankLine as AnyRankLine};
ghost use Rattle.speed_bin.specs.declared.header.Header.{Header as AnyHeader};
ghost use Rattle.rank_pair.specs.Accessing.{Asks, IsAccessed, IsOpen, IsThere, MayAccess, MayClose, MayColumn, column_for};
ghost use Rattle.rank_pair.specs.Under.{IsCut};

use crate::deadline_laws::deadline_laws;
use crate::pair::{LineAccess, Pair};
use command_words::{Command, Geometry, LineAddr, map_line};
use ddr_io::Sink;
use ddr_text::Stop;
use rank_bus::Rank;

impl Pair {
    /// An R or W line: the ACT, the RD or WR, and the PREpb of its bank.
    pub(crate) fn access<K: Sink>(
        &mut self,
        rank: Rank,
        access: &LineAccess,
        sink: &mut K,
    ) -> Result<(), Stop>
        requires { MayAccess self.old rank access.now (K.written sink.old) }
        ensures closed { OnOk result ((h : AnyHeader) (front : List AnyRankLine) (it : AnyRankLine) (before : Option (List ℕ))
            → IsThere self.old h front Resting before (K.written sink.old) → Asks h front it rank access.now
            → IsThere self.new h (front ++ it ∷ []) (Closed rank) before (K.written sink.new)) }
        ensures begins_a_report { IfErr result (λ stop. (h : AnyHeader) (front : List AnyRankLine) (it : AnyRankLine) (before : Option (List ℕ))
            → IsThere self.old h front Resting before (K.written sink.old) → Asks h front it rank access.now
            → IsCut h (front ++ it ∷ []) before (K.written sink.new)) }
        ensures faults_kept { OnOk result (K.faults sink.new ≡ K.faults sink.old) }
        ensures cause { IfErr result (WriteCause (K.faults sink.old) (K.faults sink.new)) }
    {
        self.open_row(rank, access, sink)?;
        self.read_or_write(rank, access, sink)?;
        self.close(rank, access, sink)
    }

    // ACT.
    fn open_row<K: Sink>(
        &mut self,
        rank: Rank,
        access: &LineAccess,
        sink: &mut K,
    ) -> Result<(), Stop>
        requires { MayAccess self.old rank access.now (K.written sink.old) }
        ensures opened { OnOk result ((h : AnyHeader) (front : List AnyRankLine) (it : AnyRankLine) (before : Option (List ℕ))
            → IsThere self.old h front Resting before (K.written sink.old) → Asks h front it rank access.now
            → IsOpen self.new h front it rank access.now before (K.written sink.new)) }
        ensures begins_a_report { IfErr result (λ stop. (h : AnyHeader) (front : List AnyRankLine) (it : AnyRankLine) (before : Option (List ℕ))
            → IsThere self.old h front Resting before (K.written sink.old) → Asks h front it rank access.now
            → IsCut h (front ++ it ∷ []) before (K.written sink.new)) }
        ensures faults_kept { OnOk result (K.faults sink.new ≡ K.faults sink.old) }
        ensures cause { IfErr result (WriteCause (K.faults sink.old) (K.faults sink.new)) }
    {
        deadline_laws();
        let act = act_of(access.line, self.geometry);
        self.issue(rank, &act, &None, sink)
    }

    // RD or WR.
    fn read_or_write<K: Sink>(
        &mut self,
        rank: Rank,
        access: &LineAccess,
        sink: &mut K,
    ) -> Result<(), Stop>
        requires { MayColumn self.old rank access.now (K.written sink.old) }
        ensures accessed { OnOk result ((h : AnyHeader) (front : List AnyRankLine) (it : AnyRankLine) (before : Option (List ℕ))
            → IsOpen self.old h front it rank access.now before (K.written sink.old) → Asks h front it rank access.now
            → IsAccessed self.new h (front ++ it ∷ []) rank access.now before (K.written sink.new)) }
        ensures begins_a_report { IfErr result (λ stop. (h : AnyHeader) (front : List AnyRankLine) (it : AnyRankLine) (before : Option (List ℕ))
            → IsOpen self.old h front it rank access.now before (K.written sink.old) → Asks h front it rank access.now
            → IsCut h (front ++ it ∷ []) before (K.written sink.new)) }
        ensures faults_kept { OnOk result (K.faults sink.new ≡ K.faults sink.old) }
        ensures cause { IfErr result (WriteCause (K.faults sink.old) (K.faults sink.new)) }
    {
        deadline_laws();
        let column = column_of(access, self.geometry);
        self.issue(rank, &column, &Some(*access), sink)
    }

    // PREpb.
    fn close<K: Sink>(&mut self, rank: Rank, access: &LineAccess, sink: &mut K) -> Result<(), Stop>
        requires { MayClose self.old rank access.now (K.written sink.old) }
        ensures closed { OnOk result ((h : AnyHeader) (trace : List AnyRankLine) (before : Option (List ℕ))
            → IsAccessed self.old h trace rank access.now before (K.written sink.old)
            → IsThere self.new h trace (Closed rank) before (K.written sink.new)) }
        ensures begins_a_report { IfErr result (λ stop. (h : AnyHeader) (trace : List AnyRankLine) (before : Option (List ℕ))
            → IsAccessed self.old h trace rank access.now before (K.written sink.old)
            → IsCut h trace before (K.written sink.new)) }
        ensures faults_kept { OnOk result (K.faults sink.new ≡ K.faults sink.old) }
        ensures cause { IfErr result (WriteCause (K.faults sink.old) (K.faults sink.new)) }
    {
        deadline_laws();
        let precharge = precharge_of(access.line, self.geometry);
        self.issue(rank, &precharge, &None, sink)
    }
}

// The ACT of a line's row.
fn act_of(line: LineAddr, g: Geometry) -> Command
    requires { line < lines_of g }
    ensures { result ≡ Act (place_of line g).bank (place_of line g).row }
{
    let place = map_line(line, g);
    Command::Act(place.bank, place.row)
}

// The RD of a line, or the WR of one that is written.
fn column_of(access: &LineAccess, g: Geometry) -> Command
    requires { access.now.line < lines_of g }
    ensures column { result ≡ column_for (place_of access.now.line g) access.now.bytes }
    ensures back { line_of (place_of access.now.line g) g ≡ access.now.line }
{
    let place = map_line(access.line, g);
    match access.bytes {
        Some(_) => Command::Wr(place.bank, place.column),
        None => Command::Rd(place.bank, place.column),
    }
}

// The PREpb of a line's bank.
fn precharge_of(line: LineAddr, g: Geometry) -> Command
    requires { line < lines_of g }
    ensures { result ≡ PrePb (place_of line g).bank }
{
    Command::PrePb(map_line(line, g).bank)
}
