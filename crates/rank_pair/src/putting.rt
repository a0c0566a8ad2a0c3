//! Writing lines of a report with the digit of their rank.
ghost use Rattle.std.specs.Prelude.{◌≡◌, ◌≤◌, ◌∷◌, [], OnOk, IfErr};
ghost use Rattle.std.specs.List.{flat_map};
ghost use Rattle.std.specs.Io.KnownBytes.{Appends};
ghost use Rattle.ddr_io.specs.Sink.{AppendsPrefix};
ghost use Rattle.ddr_text.specs.Stop.{WriteCause};
ghost use Rattle.pair_reports.specs.Report.{digit_of};
ghost use Rattle.rank_pair.specs.Pairs.{spelled_by};

use ddr_io::Sink;
use ddr_text::{ReportLine, Stop, put, put_line};
use rank_bus::Rank;

/// Writes a line of a report of this rank.
pub(crate) fn put_for<K: Sink>(rank: Rank, line: &ReportLine, sink: &mut K) -> Result<(), Stop>
    ensures whole { OnOk result (Appends (K.written sink.old) (K.written sink.new) (spelled_by rank line.now)) }
    ensures writes_a_prefix { IfErr result (λ stop. AppendsPrefix (K.written sink.old) (K.written sink.new) (spelled_by rank line.now)) }
    ensures faults_never_fall { K.faults sink.old ≤ K.faults sink.new }
    ensures faults_kept { OnOk result (K.faults sink.new ≡ K.faults sink.old) }
    ensures cause { IfErr result (WriteCause (K.faults sink.old) (K.faults sink.new)) }
{
    put(front_of(rank), sink)?;
    put_line(line, sink)
}

// What stands before each line of the rank: its digit, and a space.
fn front_of(rank: Rank) -> &'static [u8]
    ensures { result.now ≡ digit_of rank ∷ 32 ∷ [] }
{
    match rank {
        Rank::Zero => b"0 ",
        Rank::One => b"1 ",
    }
}

/// Writes these lines of a report of this rank.
pub(crate) fn put_all_for<K: Sink>(
    rank: Rank,
    lines: &[ReportLine],
    sink: &mut K,
) -> Result<(), Stop>
    ensures whole { OnOk result (Appends (K.written sink.old) (K.written sink.new) (flat_map (spelled_by rank) lines.now)) }
    ensures writes_a_prefix { IfErr result (λ stop. AppendsPrefix (K.written sink.old) (K.written sink.new) (flat_map (spelled_by rank) lines.now)) }
    ensures faults_never_fall { K.faults sink.old ≤ K.faults sink.new }
    ensures faults_kept { OnOk result (K.faults sink.new ≡ K.faults sink.old) }
    ensures cause { IfErr result (WriteCause (K.faults sink.old) (K.faults sink.new)) }
{
    for line in lines {
        put_for(rank, line, sink)?;
    }
    Ok(())
}
