//! The two ranks of a bus.

/// One of the two ranks that share the bus.
#[derive(Clone, Copy, Debug, PartialEq, Eq)]
pub enum Rank {
    /// Rank 0, which comes first where both need something.
    Zero,
    /// Rank 1.
    One,
}
