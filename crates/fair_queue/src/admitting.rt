//! The rounds of a merge: the queues are filled, and one rest is admitted.
ghost use Rattle.std.specs.Prelude.{◌≡◌, ◌≤◌, length, OnOk, IfOk, IfErr};
ghost use Rattle.fair_queue.specs.Machine.{empty};
ghost use Rattle.fair_queue.specs.Merging.{Merges, BeginsToMerge, ReadsEnough, StopCause};
ghost use Rattle.fair_queue.specs.Reading.{AreKept, EndsAt, Fills, IsSteady, IsStopped, unread};
ghost use Rattle.ddr_text.specs.Stop.{ReadCause};

use crate::port_lines::{Ahead, PortLines};
use crate::queues::Queues;
use crate::writing::{put_ending, put_rest};
use ddr_io::{Sink, Source};
use ddr_text::Stop;

/// Merges the lines, where none was read and no rest is queued: each rest is written as it is admitted.
pub(crate) fn merge_lines<S: Source, K: Sink>(
    cap: u32,
    queues: &mut Queues,
    lines: &mut PortLines,
    source: &mut S,
    sink: &mut K,
) -> Result<(), Stop>
    requires cap { 1 ≤ cap }
    requires queues { queues.old ≡ empty }
    requires lines { lines.old ≡ record { reader = lines.old.reader; number = 1; ahead = Ahead.Unknown } }
    ensures whole { OnOk result (Merges cap (unread lines.old (S.left source.old)) (K.written sink.old) (K.written sink.new)) }
    ensures used_up { OnOk result (ReadsEnough cap (unread lines.old (S.left source.old)) (S.left source.new)) }
    ensures begins_to_merge { IfErr result (λ stop. BeginsToMerge cap (unread lines.old (S.left source.old)) (K.written sink.old) (K.written sink.new)) }
    ensures faults_kept { OnOk result ((S.faults source.new ≡ S.faults source.old) × (K.faults sink.new ≡ K.faults sink.old)) }
    ensures cause { IfErr result (StopCause (S.faults source.old) (S.faults source.new) (K.faults sink.old) (K.faults sink.new)) }
{
    let mut count = 0;
    'rounds: loop {
        fill(queues, lines, source)?;
        match queues.admit() {
            Some(rest) => count = put_rest(cap, count, &rest, sink)?,
            None => return put_ending(lines.is_bad(), sink),
        }
    }
}

// Moves the next lines into their queues, as long as there is one and its queue is not full.
fn fill<S: Source>(queues: &mut Queues, lines: &mut PortLines, source: &mut S) -> Result<(), Stop>
    requires { length queues.old.queues ≡ 4 }
    ensures filled { OnOk result (Fills queues.old lines.old (unread lines.old (S.left source.old)) queues.new lines.new (unread lines.new (S.left source.new))) }
    ensures stopped { OnOk result (IsStopped queues.new lines.new.ahead) }
    ensures ended { OnOk result (EndsAt (unread lines.old (S.left source.old)) lines.old.ahead (unread lines.old (S.left source.old)) → EndsAt (unread lines.old (S.left source.old)) lines.new.ahead (unread lines.new (S.left source.new))) }
    ensures queues { OnOk result (AreKept queues.old queues.new) }
    ensures steady { OnOk result (IsSteady queues.old lines.old queues.new lines.new) }
    ensures few { OnOk result (lines.new.number ≤ 1048577) }
    ensures faults_kept { OnOk result (S.faults source.new ≡ S.faults source.old) }
    ensures cause { IfErr result (ReadCause (S.faults source.old) (S.faults source.new)) }
{
    'filling: loop {
        lines.look(source)?;
        match lines.port() {
            Some(port) => {
                if !queues.has_room(port) {
                    return Ok(());
                }
                queues.push(port, lines.take());
            }
            None => return Ok(()),
        }
    }
}
