//! The timing numbers of a speed bin.
ghost use Rattle.std.specs.Prelude.{◌≡◌, IfSome};
ghost use Rattle.speed_bin.specs.Timing.{IsTiming, bin_named};

/// The timing numbers, all in clocks, each 1 to 65,535.
#[derive(Clone, Copy, Debug, PartialEq, Eq)]
pub struct Timing {
    /// Read latency.
    pub ncl: u32,
    /// Write latency.
    pub ncwl: u32,
    /// ACT to RD or WR.
    pub nrcd: u32,
    /// Precharge to ACT.
    pub nrp: u32,
    /// ACT to precharge.
    pub nras: u32,
    /// ACT to ACT of one bank.
    pub nrc: u32,
    /// ACT to ACT.
    pub nrrd_s: u32,
    /// ACT to ACT of one group.
    pub nrrd_l: u32,
    /// The window of five ACTs.
    pub nfaw: u32,
    /// RD to RD, WR to WR.
    pub nccd_s: u32,
    /// RD to RD of one group.
    pub nccd_l: u32,
    /// WR to WR of one group.
    pub nccd_l_wr: u32,
    /// End of a write burst to RD.
    pub nwtr_s: u32,
    /// End of a write burst to RD of one group.
    pub nwtr_l: u32,
    /// RD to precharge.
    pub nrtp: u32,
    /// End of a write burst to precharge.
    pub nwr: u32,
    /// Length of REFab.
    pub nrfc: u32,
    /// Length of REFsb.
    pub nrfcsb: u32,
    /// Length of RFMab.
    pub nrfm: u32,
    /// Length of RFMsb.
    pub nrfmsb: u32,
    /// The refresh interval.
    pub nrefi: u32,
    /// The alert window.
    pub nabo: u32,
    /// Length of MRW.
    pub nmrd: u32,
    /// Length of ECS.
    pub necs: u32,
}

/// The timing of the bin with this name: `4800-prac` or `tiny`, and `None` exactly for every other name.
pub fn named(name: &str) -> Option<Timing>
    ensures named { result ≡ bin_named name.now }
    ensures in_range { IfSome result IsTiming }
{
    match name {
        "4800-prac" => Some(PRAC_4800),
        "tiny" => Some(TINY),
        _ => None,
    }
}

/// DDR5-4800 with per-row activation counting, at 416 ps a clock.
pub const PRAC_4800: Timing = Timing {
    ncl: 40,
    ncwl: 38,
    nrcd: 39,
    nrp: 87,
    nras: 39,
    nrc: 125,
    nrrd_s: 8,
    nrrd_l: 12,
    nfaw: 32,
    nccd_s: 8,
    nccd_l: 12,
    nccd_l_wr: 48,
    nwtr_s: 6,
    nwtr_l: 24,
    nrtp: 12,
    nwr: 24,
    nrfc: 708,
    nrfcsb: 312,
    nrfm: 839,
    nrfmsb: 456,
    nrefi: 9375,
    nabo: 432,
    nmrd: 34,
    necs: 264,
};

/// Small numbers, for examples and tests.
pub const TINY: Timing = Timing {
    ncl: 6,
    ncwl: 4,
    nrcd: 3,
    nrp: 4,
    nras: 6,
    nrc: 10,
    nrrd_s: 2,
    nrrd_l: 3,
    nfaw: 10,
    nccd_s: 8,
    nccd_l: 10,
    nccd_l_wr: 12,
    nwtr_s: 2,
    nwtr_l: 4,
    nrtp: 3,
    nwr: 5,
    nrfc: 20,
    nrfcsb: 12,
    nrfm: 24,
    nrfmsb: 16,
    nrefi: 1000,
    nabo: 32,
    nmrd: 4,
    necs: 14,
};
