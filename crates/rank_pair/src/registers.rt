//! The register writes, which come first.
ghost use Rattle.std.specs.Prelude.{◌≡◌, ◌+◌, [], ℕ, Option, List, OnOk, IfErr};
ghost use Rattle.std.specs.Io.KnownBytes.{Appends};
ghost use Rattle.ddr_text.specs.Stop.{WriteCause};
ghost use Rattle.pair_deadlines.specs.Budget.{HasTime};
ghost use Rattle.pair_deadlines.specs.Keeping.{Resting};
ghost use Rattle.rank_bus.specs.Standing.{now_of};
ghost use Rattle.speed_bin.specs.Header.{IsAccepted};
ghost use Rattle.speed_bin.specs.Registers.{register_writes};
ghost use Rattle.speed_bin.specs.declared.header.Header.{Header as AnyHeader};
ghost use Rattle.rank_pair.specs.Accessing.{IsThere};
ghost use Rattle.rank_pair.specs.Pairs.{StandsFor};
ghost use Rattle.rank_pair.specs.Under.{IsCut};
ghost use Rattle.rank_pair.specs.Writing.{IsTurn, IsWritten, written_after, written_before};

use crate::deadline_laws::deadline_laws;
use crate::pair::Pair;
use crate::service::in_range;
use command_words::{Command, Mrw};
use ddr_io::Sink;
use ddr_text::Stop;
use mode_registers::writes;
use rank_bus::Rank;
use speed_bin::Header;

impl Pair {
    /// Writes the registers of both ranks, and serves them, as before the first line or the end.
    pub(crate) fn start<K: Sink>(&mut self, header: &Header, sink: &mut K) -> Result<(), Stop>
        requires accepted { IsAccepted header.now }
        requires time { HasTime header.now }
        requires fresh { StandsFor self.old header.now [] [] }
        requires now { now_of self.old.bus ≡ 0 }
        ensures started { OnOk result ((before : Option (List ℕ)) → Appends before (K.written sink.old) [] → IsThere self.new header.now [] Resting before (K.written sink.new)) }
        ensures begins_a_report { IfErr result (λ stop. (before : Option (List ℕ)) → Appends before (K.written sink.old) [] → IsCut header.now [] before (K.written sink.new)) }
        ensures faults_kept { OnOk result (K.faults sink.new ≡ K.faults sink.old) }
        ensures cause { IfErr result (WriteCause (K.faults sink.old) (K.faults sink.new)) }
    {
        self.write_registers(header, sink)?;
        self.serve(sink)
    }

    // Writes the eight registers of rank 0, and then those of rank 1.
    fn write_registers<K: Sink>(&mut self, header: &Header, sink: &mut K) -> Result<(), Stop>
        requires accepted { IsAccepted header.now }
        requires time { HasTime header.now }
        requires fresh { StandsFor self.old header.now [] [] }
        requires now { now_of self.old.bus ≡ 0 }
        ensures written { OnOk result ((before : Option (List ℕ)) → Appends before (K.written sink.old) [] → IsThere self.new header.now [] Resting before (K.written sink.new)) }
        ensures begins_a_report { IfErr result (λ stop. (before : Option (List ℕ)) → Appends before (K.written sink.old) [] → IsCut header.now [] before (K.written sink.new)) }
        ensures faults_kept { OnOk result (K.faults sink.new ≡ K.faults sink.old) }
        ensures cause { IfErr result (WriteCause (K.faults sink.old) (K.faults sink.new)) }
    {
        deadline_laws();
        let writes = writes(&header.settings);
        self.write_rank(Rank::Zero, writes.as_slice(), sink)?;
        self.write_rank(Rank::One, writes.as_slice(), sink)
    }

    // Writes the registers of a rank.
    fn write_rank<K: Sink>(&mut self, rank: Rank, writes: &[Mrw], sink: &mut K) -> Result<(), Stop>
        requires { (h : AnyHeader) × (before : Option (List ℕ)) × (writes.now ≡ register_writes h.settings) × IsWritten self.old h (written_before rank) before (K.written sink.old) }
        ensures written { OnOk result ((h : AnyHeader) (before : Option (List ℕ)) → writes.now ≡ register_writes h.settings
            → IsWritten self.old h (written_before rank) before (K.written sink.old) → IsWritten self.new h (written_after rank 8) before (K.written sink.new)) }
        ensures begins_a_report { IfErr result (λ stop. (h : AnyHeader) (before : Option (List ℕ)) → writes.now ≡ register_writes h.settings
            → IsWritten self.old h (written_before rank) before (K.written sink.old) → IsCut h [] before (K.written sink.new)) }
        ensures faults_kept { OnOk result (K.faults sink.new ≡ K.faults sink.old) }
        ensures cause { IfErr result (WriteCause (K.faults sink.old) (K.faults sink.new)) }
    {
        for register in writes {
            self.write(rank, register, sink)?;
        }
        Ok(())
    }

    // Writes the next register of a rank.
    fn write<K: Sink>(&mut self, rank: Rank, write: &Mrw, sink: &mut K) -> Result<(), Stop>
        requires { (h : AnyHeader) × (before : Option (List ℕ)) × (count : ℕ) × (IsTurn h write.now count) × IsWritten self.old h (written_after rank count) before (K.written sink.old) }
        ensures written { OnOk result ((h : AnyHeader) (before : Option (List ℕ)) (count : ℕ) → IsTurn h write.now count
            → IsWritten self.old h (written_after rank count) before (K.written sink.old) → IsWritten self.new h (written_after rank (count + 1)) before (K.written sink.new)) }
        ensures begins_a_report { IfErr result (λ stop. (h : AnyHeader) (before : Option (List ℕ)) (count : ℕ) → IsTurn h write.now count
            → IsWritten self.old h (written_after rank count) before (K.written sink.old) → IsCut h [] before (K.written sink.new)) }
        ensures faults_kept { OnOk result (K.faults sink.new ≡ K.faults sink.old) }
        ensures cause { IfErr result (WriteCause (K.faults sink.old) (K.faults sink.new)) }
    {
        deadline_laws();
        let command = Command::Mrw(*write);
        in_range(&command);
        self.issue(rank, &command, &None, sink)
    }
}
