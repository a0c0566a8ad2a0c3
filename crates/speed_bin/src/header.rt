//! The header of a job.
ghost use Rattle.std.specs.Prelude.{◌≡◌, ◌≤◌};
ghost use Rattle.speed_bin.specs.Header.{IsAccepted, shape_of, spare};

use crate::{Settings, Timing, Version};
use command_words::Geometry;

/// The timing, the settings and the version of a job.
#[derive(Clone, Copy, Debug, PartialEq, Eq)]
pub struct Header {
    pub timing: Timing,
    pub settings: Settings,
    pub version: Version,
}

impl Header {
    /// The shape of the subchannel: the header's rows, and the bank groups of its version.
    pub fn geometry(&self) -> Geometry
        requires { IsAccepted self.now }
        ensures { result ≡ shape_of self.now }
    {
        Geometry::with(self.settings.rows, self.version.groups())
    }

    /// The activations of one bank that a back-off cycle has beyond the first.
    #[tactic(auto, unfolding(crate::specs::Header::spare))]
    pub fn spare(&self) -> u32
        ensures spare { result ≡ spare self.now }
        ensures in_range { (1 ≤ result) × (result ≤ 4) }
    {
        self.version.cycle() - 1
    }
}
