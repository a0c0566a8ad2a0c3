//! Clocks without a gap between them.
ghost use Rattle.std.specs.Prelude.{ℕ, ◌≡◌, ◌↔◌, ◌≤◌, ◌<◌, ◌^◌, Some, None};
ghost use Rattle.legality.specs.Within.{IsWithin, clocks_of};

use timing_rules::Clock;

/// The last clock of the bus.
pub(crate) const LAST: Clock = 281_474_976_710_655;

/// The clocks from one to another, both among them; none where the first is above the last.
#[derive(Clone, Copy, Debug, PartialEq, Eq)]
pub(crate) struct Span {
    pub(crate) first: Clock,
    pub(crate) last: Clock,
}

impl Span {
    /// The clocks of the bus from this one on.
    pub(crate) fn starting(clock: Clock) -> Span
        ensures first { result.first ≡ clock }
        ensures within { (other : ℕ) → other < 2 ^ 48 → (IsWithin result other ↔ (clock ≤ other)) }
        ensures of_the_bus { result.last < 2 ^ 48 }
    {
        Span {
            first: clock,
            last: LAST,
        }
    }

    /// The clocks of the bus up to this one.
    pub(crate) fn ending(clock: Clock) -> Span
        ensures first { result.first ≡ 0 }
        ensures within { (other : ℕ) → other < 2 ^ 48 → (IsWithin result other ↔ (other ≤ clock)) }
        ensures of_the_bus { result.last < 2 ^ 48 }
    {
        Span {
            first: 0,
            last: clock.min(LAST),
        }
    }

    /// The clocks that are in both.
    pub(crate) fn both(self, other: Span) -> Span
        ensures within { (clock : ℕ) → (IsWithin result clock ↔ (IsWithin self clock × IsWithin other clock)) }
        ensures of_the_bus { self.last < 2 ^ 48 → result.last < 2 ^ 48 }
    {
        Span {
            first: self.first.max(other.first),
            last: self.last.min(other.last),
        }
    }

    /// Its first and its last clock, where it has any.
    pub(crate) fn clocks(self) -> Option<(Clock, Clock)>
        ensures { result ≡ clocks_of self }
    {
        if self.first <= self.last {
            Some((self.first, self.last))
        } else {
            None
        }
    }
}
