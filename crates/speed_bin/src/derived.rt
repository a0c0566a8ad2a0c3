//! The numbers that are derived from a timing.
ghost use Rattle.std.specs.Prelude.{◌≡◌, ◌≤◌, ◌+◌, ◌-◌, max, fold};
ghost use Rattle.speed_bin.specs.Gap.{n_col, n_max, n_close, n_tail};
ghost use Rattle.speed_bin.specs.Timing.{IsTiming};

use crate::Timing;

impl Timing {
    /// What a column command blocks of others at the most, in clocks.
    #[tactic(auto, unfolding(crate::specs::Gap::n_col))]
    pub fn n_col(&self) -> u32
        requires { IsTiming self.now }
        ensures column { result ≡ n_col self.now }
        ensures within { result ≤ 131078 }
    {
        let turned = self.read_to_write();
        let write = self.ncwl + 8;
        let other = turned.max((write + self.nwtr_s).max(write + self.nwtr_l));
        self.nccd_s.max(self.nccd_l.max(self.nccd_l_wr.max(other)))
    }

    // What a RD blocks of a WR, and 0 where that is below 0.
    fn read_to_write(&self) -> u32
        requires { IsTiming self.now }
        ensures clocks { result ≡ self.now.ncl + 10 - self.now.ncwl }
        ensures within { result ≤ 65545 }
    {
        (self.ncl + 10).saturating_sub(self.ncwl)
    }

    /// From an ACT to all banks closed, with one column, in clocks.
    #[tactic(auto, unfolding(crate::specs::Gap::n_close))]
    pub fn n_close(&self) -> u32
        requires { IsTiming self.now }
        ensures close { result ≡ n_close self.now }
        ensures within { result ≤ 393218 }
    {
        self.nrcd + self.nras + self.ncwl + 8 + self.nwr + self.nrtp + self.nrp
    }

    /// What any command blocks of any other at the most, in clocks: the greatest of nFAW and the clocks of the gap table
    /// of `docs/RULES.md`, in its order.
    pub fn n_max(&self) -> u32
        requires { IsTiming self.now }
        ensures most { result ≡ n_max self.now }
        ensures within { result ≤ 131078 }
    {
        let write = self.ncwl + 8;
        let clocks = [
            2,
            1,
            self.nrrd_s,
            self.nrrd_l,
            self.nrc,
            self.nrcd,
            self.nras,
            self.nccd_s,
            self.nccd_l,
            self.nccd_s,
            self.nccd_l_wr,
            self.read_to_write(),
            write + self.nwtr_s,
            write + self.nwtr_l,
            self.nrtp,
            write + self.nwr,
            self.nrp,
            self.nrfc,
            self.nrfcsb,
            self.nrfm,
            self.nrfmsb,
            self.necs,
            self.nmrd,
        ];
        greatest(self.nfaw, &clocks)
    }

    /// From the last command before a closing begins to the command for which all banks are closed, at the most, in
    /// clocks.
    #[tactic(auto, unfolding(crate::specs::Gap::n_tail))]
    pub fn n_tail(&self) -> u32
        requires { IsTiming self.now }
        ensures tail { result ≡ n_tail self.now }
        ensures within { result ≤ 4718792 }
    {
        self.n_max() + self.n_close() + 32 * self.n_col()
    }
}

// The greatest of some clocks and of others.
fn greatest(some: u32, others: &[u32]) -> u32
    ensures { result ≡ fold max some others.now }
{
    others.iter().fold(some, |most, clocks| most.max(*clocks))
}
