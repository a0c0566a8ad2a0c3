//! Which rules are judged.
ghost use Rattle.std.specs.Prelude.{◌≡◌};
ghost use Rattle.judged_logs.specs.Verdicts.{everything};

/// Which groups of rules are judged, each by whether it is. Spacing and the open rows of banks, rules 1 to 5, always are.
#[derive(Clone, Copy, Debug, PartialEq, Eq)]
pub struct Judged {
    /// Rules 6 to 8: refreshes and scrubs.
    pub refresh: bool,
    /// Rules 9 and 10: what a rolling count lets a bank do.
    pub management: bool,
    /// Rules 11 to 13: the alert, and when an RFMab may come. Without them no row is counted, and no alert is known.
    pub backoff: bool,
    /// Rule 14: the register writes at the beginning of a log, and how it ends.
    pub frame: bool,
}

impl Judged {
    /// All fourteen rules.
    pub const fn all() -> Judged
        ensures { result ≡ everything }
    {
        Judged {
            refresh: true,
            management: true,
            backoff: true,
            frame: true,
        }
    }
}
