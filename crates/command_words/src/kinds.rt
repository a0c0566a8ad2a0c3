//! Kinds of commands, as questions that a command answers.
ghost use Rattle.std.specs.Prelude.{◌≡◌, ◌<◌, ◌||◌};
ghost use Rattle.command_words.specs.Kinds.{bank_of, group_of, is_act, is_mrw, is_nop, is_precharge, is_rd, is_ref_all, is_ref_same, is_rfm_all, is_rfm_same, is_scrub, is_wr, needs_closed};

use crate::{Bank, Command};

impl Command {
    /// ACT.
    pub fn is_act(&self) -> bool
        ensures { result ≡ is_act self.now }
    {
        matches!(self, Command::Act(_, _))
    }

    /// RD.
    pub fn is_rd(&self) -> bool
        ensures { result ≡ is_rd self.now }
    {
        matches!(self, Command::Rd(_, _))
    }

    /// WR.
    pub fn is_wr(&self) -> bool
        ensures { result ≡ is_wr self.now }
    {
        matches!(self, Command::Wr(_, _))
    }

    /// RD or WR: what names a column.
    pub fn is_column(&self) -> bool
        ensures { result ≡ (is_rd self.now || is_wr self.now) }
    {
        self.is_rd() || self.is_wr()
    }

    /// PREpb, PREsb or PREab.
    pub fn is_precharge(&self) -> bool
        ensures { result ≡ is_precharge self.now }
    {
        matches!(self, Command::PrePb(_) | Command::PreSb(_) | Command::PreAb)
    }

    /// REFab.
    pub fn is_ref_all(&self) -> bool
        ensures { result ≡ is_ref_all self.now }
    {
        matches!(self, Command::RefAb)
    }

    /// REFsb.
    pub fn is_ref_same(&self) -> bool
        ensures { result ≡ is_ref_same self.now }
    {
        matches!(self, Command::RefSb(_))
    }

    /// RFMab.
    pub fn is_rfm_all(&self) -> bool
        ensures { result ≡ is_rfm_all self.now }
    {
        matches!(self, Command::RfmAb)
    }

    /// RFMsb.
    pub fn is_rfm_same(&self) -> bool
        ensures { result ≡ is_rfm_same self.now }
    {
        matches!(self, Command::RfmSb(_))
    }

    /// RFMab or RFMsb: refresh management.
    pub fn is_rfm(&self) -> bool
        ensures { result ≡ (is_rfm_all self.now || is_rfm_same self.now) }
    {
        self.is_rfm_all() || self.is_rfm_same()
    }

    /// MRW.
    pub fn is_mrw(&self) -> bool
        ensures { result ≡ is_mrw self.now }
    {
        matches!(self, Command::Mrw(_))
    }

    /// ECS.
    pub fn is_scrub(&self) -> bool
        ensures { result ≡ is_scrub self.now }
    {
        matches!(self, Command::Ecs)
    }

    /// NOP.
    pub fn is_nop(&self) -> bool
        ensures { result ≡ is_nop self.now }
    {
        matches!(self, Command::Nop)
    }

    /// REF, RFM, ECS and MRW: what needs the banks that it covers closed.
    pub fn needs_closed(&self) -> bool
        ensures { result ≡ needs_closed self.now }
    {
        matches!(
            self,
            Command::RefAb
                | Command::RefSb(_)
                | Command::RfmAb
                | Command::RfmSb(_)
                | Command::Ecs
                | Command::Mrw(_)
        )
    }

    /// The bank of a command that names one: ACT, RD, WR and PREpb. `None` for all others.
    pub fn bank(&self) -> Option<Bank>
        ensures { result ≡ bank_of self.now }
    {
        match self {
            Command::Act(bank, _) => Some(*bank),
            Command::Rd(bank, _) => Some(*bank),
            Command::Wr(bank, _) => Some(*bank),
            Command::PrePb(bank) => Some(*bank),
            _ => None,
        }
    }

    /// The group of a command that names one bank, and 0 for all others.
    pub fn group(&self) -> u8
        ensures group { result ≡ group_of self.now }
        ensures in_range { result < 8 }
    {
        match self {
            Command::Act(bank, _) => bank.group.get(),
            Command::Rd(bank, _) => bank.group.get(),
            Command::Wr(bank, _) => bank.group.get(),
            Command::PrePb(bank) => bank.group.get(),
            _ => 0,
        }
    }
}
