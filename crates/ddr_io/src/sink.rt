//! Where bytes go.
ghost use Rattle.std.specs.Prelude.{ℕ, ◌≡◌, ◌≢◌, ◌<◌, ◌≤◌, List, Option, length};
ghost use Rattle.ddr_io.specs.Faults.{Rose};
ghost use Rattle.ddr_io.specs.Sink.{TakesAtMost, Takes, TakesWhole};

/// What one write took.
#[derive(Clone, Copy, Debug, PartialEq, Eq)]
pub enum Put {
    /// So many bytes, at least 1, were taken from the front of the piece.
    Took(usize),
    /// The sink had a fault, and took no byte.
    Failed,
    /// No memory was left for the bytes.
    NoMemory,
}

/// Takes bytes, and counts its faults.
pub trait Sink {
    /// The bytes that were written, where the sink tells them.
    ghost written: { Self → Option (List ℕ) };

    /// How often the sink has failed.
    ghost faults: { Self → ℕ };

    /// Appends the first bytes of `piece`, which is not empty.
    fn write(&mut self, piece: &[u8]) -> Put
        requires { 0 < length piece.now }
        ensures bound { TakesAtMost result piece.now }
        ensures bytes { Takes (written self.old) (written self.new) result piece.now }
        ensures faults_never_fall { faults self.old ≤ faults self.new }
        ensures failed { result ≡ Put.Failed → Rose (faults self.old) (faults self.new) }
        ensures faults_kept { result ≢ Put.Failed → faults self.new ≡ faults self.old };
}

/// Writes the whole piece, by as many writes as that takes. After any answer but `Took`, some
/// prefix of the piece was written.
pub fn put_all<K: Sink>(sink: &mut K, piece: &[u8]) -> Put
    requires { 0 < length piece.now }
    ensures bytes { TakesWhole (K.written sink.old) (K.written sink.new) result piece.now }
    ensures faults_never_fall { K.faults sink.old ≤ K.faults sink.new }
    ensures failed { result ≡ Put.Failed → Rose (K.faults sink.old) (K.faults sink.new) }
    ensures faults_kept { result ≢ Put.Failed → K.faults sink.new ≡ K.faults sink.old }
{
    let mut rest = piece;
    while !rest.is_empty() {
        match sink.write(rest) {
            Put::Took(count) => rest = &rest[count..],
            Put::Failed => return Put::Failed,
            Put::NoMemory => return Put::NoMemory,
        }
    }
    Put::Took(piece.len())
}
