//! Writes the pieces of a merged job.
ghost use Rattle.std.specs.Prelude.{◌≡◌, ◌<◌, ◌≤◌, ◌^◌, ◌++◌, ◌∷◌, [], ◌&&◌, if◌then◌else◌, length, OnOk, IfOk, IfErr};
ghost use Rattle.std.specs.List.{flat_map};
ghost use Rattle.std.specs.Io.KnownBytes.{Appends};
ghost use Rattle.ddr_io.specs.Sink.{AppendsPrefix};
ghost use Rattle.ddr_text.specs.Opening.{with_feed};
ghost use Rattle.fair_queue.specs.Merged.{barriers, barrier, ending, is_due, is_request, one_more};
ghost use Rattle.ddr_text.specs.Stop.{WriteCause};

use crate::rest::Rest;
use arrayvec::ArrayVec;
use ddr_io::Sink;
use ddr_text::{Stop, put};

/// Writes a rest, and the barrier before it, if one is due, where so many requests were written before. How many they
/// are then.
pub(crate) fn put_rest<K: Sink>(
    cap: u32,
    count: u64,
    rest: &Rest,
    sink: &mut K,
) -> Result<u64, Stop>
    requires cap { 1 ≤ cap }
    requires few { count < 2 ^ 32 }
    ensures count { IfOk result (λ n. n ≡ one_more (is_request rest.now) count) }
    ensures whole { OnOk result (Appends (K.written sink.old) (K.written sink.new) (flat_map with_feed (barriers cap count rest.now ++ rest.now ∷ []))) }
    ensures writes_a_prefix { IfErr result (λ stop. AppendsPrefix (K.written sink.old) (K.written sink.new) (flat_map with_feed (barriers cap count rest.now ++ rest.now ∷ []))) }
    ensures faults_never_fall { K.faults sink.old ≤ K.faults sink.new }
    ensures faults_kept { OnOk result (K.faults sink.new ≡ K.faults sink.old) }
    ensures cause { IfErr result (WriteCause (K.faults sink.old) (K.faults sink.new)) }
{
    let asks = is_request(rest.bytes());
    put_barrier(is_barred(cap, count, asks), sink)?;
    put_with_feed(rest.bytes(), sink)?;
    Ok(if asks { count + 1 } else { count })
}

/// Writes the empty line that stands for a bad line.
pub(crate) fn put_ending<K: Sink>(is_bad: bool, sink: &mut K) -> Result<(), Stop>
    ensures whole { OnOk result (Appends (K.written sink.old) (K.written sink.new) (ending is_bad)) }
    ensures writes_a_prefix { IfErr result (λ stop. AppendsPrefix (K.written sink.old) (K.written sink.new) (ending is_bad)) }
    ensures faults_never_fall { K.faults sink.old ≤ K.faults sink.new }
    ensures faults_kept { OnOk result (K.faults sink.new ≡ K.faults sink.old) }
    ensures cause { IfErr result (WriteCause (K.faults sink.old) (K.faults sink.new)) }
{
    if is_bad {
        return put_with_feed(b"", sink);
    }
    Ok(())
}

// Whether a barrier stands before the next rest, by whether that is a request.
fn is_barred(cap: u32, count: u64, asks: bool) -> bool
    requires { 1 ≤ cap }
    ensures { result ≡ (asks && is_due cap count) }
{
    asks && is_due(cap, count)
}

// Writes a barrier, where one is due.
fn put_barrier<K: Sink>(due: bool, sink: &mut K) -> Result<(), Stop>
    ensures whole { OnOk result (Appends (K.written sink.old) (K.written sink.new) (flat_map with_feed (if due then barrier ∷ [] else []))) }
    ensures writes_a_prefix { IfErr result (λ stop. AppendsPrefix (K.written sink.old) (K.written sink.new) (flat_map with_feed (if due then barrier ∷ [] else []))) }
    ensures faults_never_fall { K.faults sink.old ≤ K.faults sink.new }
    ensures faults_kept { OnOk result (K.faults sink.new ≡ K.faults sink.old) }
    ensures cause { IfErr result (WriteCause (K.faults sink.old) (K.faults sink.new)) }
{
    if due {
        return put_with_feed(b"I 0", sink);
    }
    Ok(())
}

// Whether a rest counts as a request.
fn is_request(rest: &[u8]) -> bool
    ensures { result ≡ is_request rest.now }
{
    match rest {
        [] => false,
        [first, ..] => *first == b'R' || *first == b'W',
    }
}

// Whether a barrier stands before the next request, where so many were written before.
fn is_due(cap: u32, count: u64) -> bool
    requires { 1 ≤ cap }
    ensures { result ≡ is_due cap count }
{
    count != 0 && count % u64::from(cap) == 0
}

// Writes a line and its line feed.
fn put_with_feed<K: Sink>(line: &[u8], sink: &mut K) -> Result<(), Stop>
    requires { length line.now < 512 }
    ensures whole { OnOk result (Appends (K.written sink.old) (K.written sink.new) (with_feed line.now)) }
    ensures writes_a_prefix { IfErr result (λ stop. AppendsPrefix (K.written sink.old) (K.written sink.new) (with_feed line.now)) }
    ensures faults_never_fall { K.faults sink.old ≤ K.faults sink.new }
    ensures faults_kept { OnOk result (K.faults sink.new ≡ K.faults sink.old) }
    ensures cause { IfErr result (WriteCause (K.faults sink.old) (K.faults sink.new)) }
{
    let mut piece: ArrayVec<u8, 512> = ArrayVec::new();
    let _ = piece.try_extend_from_slice(line);
    piece.push(b'\n');
    put(&piece, sink)
}
