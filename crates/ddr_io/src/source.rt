//! Where bytes come from.
ghost use Rattle.std.specs.Prelude.{ℕ, ◌≡◌, ◌≢◌, ◌<◌, ◌≤◌, List, Option, length};
ghost use Rattle.ddr_io.specs.Faults.{Rose};
ghost use Rattle.ddr_io.specs.Source.{GivesAtMost, Gives};

/// What one read gave.
#[derive(Clone, Copy, Debug, PartialEq, Eq)]
pub enum Got {
    /// So many bytes, at least 1, stand at the front of the buffer.
    Bytes(usize),
    /// No byte is left.
    End,
    /// The source had a fault, and took no byte.
    Failed,
}

/// Gives bytes, and counts its faults.
pub trait Source {
    /// The bytes that are left, where the source tells them.
    ghost left: { Self → Option (List ℕ) };

    /// How often the source has failed.
    ghost faults: { Self → ℕ };

    /// Moves the first bytes that are left to the front of `buf`, which has room for at least one.
    fn read(&mut self, buf: &mut [u8]) -> Got
        requires { 0 < length buf.old }
        ensures bound { GivesAtMost result buf.new }
        ensures bytes { Gives (left self.old) (left self.new) result buf.new }
        ensures faults_never_fall { faults self.old ≤ faults self.new }
        ensures failed { result ≡ Got.Failed → Rose (faults self.old) (faults self.new) }
        ensures faults_kept { result ≢ Got.Failed → faults self.new ≡ faults self.old };
}
