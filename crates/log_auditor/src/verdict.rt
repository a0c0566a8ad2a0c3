//! What an audit says of a log.

/// One of the fourteen rules of `docs/RULES.md`, by its number, 1 to 14.
#[derive(Clone, Copy, Debug, PartialEq, Eq)]
pub struct Rule(pub u8);

/// What is said of a log so far.
#[derive(Clone, Copy, Debug, PartialEq, Eq)]
pub enum Verdict {
    /// Every rule holds at every place.
    Fine,
    /// The least rule that fails at the first place where one fails.
    Breaks(Rule),
}
