//! What the separator of a job states of its header.
ghost use Rattle.std.specs.Prelude.{ℕ, suc, ◌≡◌, ◌≤◌, ◌↔◌, IsSome, IfSome};
ghost use Rattle.command_words.specs.Geometry.{IsGroups};
ghost use Rattle.speed_bin.specs.Version.{IsVersion, plain};

use std::marker::Model;

/// How many activations of one bank a back-off cycle has (2 to 5), and how many bank groups there are (4 or 8).
#[derive(Clone, Copy, Debug, PartialEq, Eq)]
pub struct Version {
    cycle: u32,
    groups: u8,
}

impl Model for Version {
    ghost use Rattle.speed_bin.specs.Version.{Figures, IsVersion};

    ghost Value = { Figures };

    ghost view = { λ v. record { cycle = v.cycle; groups = v.groups } };

    ghost invariant = { λ v. IsVersion (record { cycle = v.cycle; groups = v.groups }) };

    ghost inverse = { λ f. record { cycle = f.cycle; groups = f.groups } };
}

impl Version {
    /// `None` exactly where the cycle is not 2 to 5 or the groups are neither 4 nor 8.
    pub fn new(cycle: u32, groups: u8) -> Option<Self>
        ensures in_range { IsSome result ↔ ((2 ≤ cycle) × (cycle ≤ 5) × IsGroups groups) }
        ensures value { IfSome result (λ v. v ≡ record { cycle = cycle; groups = groups }) }
    {
        if 2 <= cycle && cycle <= 5 && (groups == 4 || groups == 8) {
            Some(Version { cycle, groups })
        } else {
            None
        }
    }

    /// That of a separator that states none: a cycle of 4 activations, and 8 bank groups.
    pub fn plain() -> Self
        ensures { result ≡ plain }
    {
        Version {
            cycle: 4,
            groups: 8,
        }
    }

    /// The activations of one bank in a back-off cycle.
    pub fn cycle(self) -> u32
        ensures cycle { result ≡ self.cycle }
        ensures in_range { IsVersion self }
    {
        self.cycle
    }

    /// The bank groups.
    pub fn groups(self) -> u8
        ensures groups { result ≡ self.groups }
        ensures in_range { IsVersion self }
    {
        self.groups
    }
}
