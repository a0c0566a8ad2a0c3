//! The rolling activation count of each bank, without a limit.
ghost use Rattle.std.specs.Prelude.{◌≡◌, ℕ, ◌+◌, ◌-◌, ◌<◌, ◌^◌, ◌∷◌, [], Bool, true, false, slice_index, slice_set, length};
ghost use Rattle.command_words.specs.Command.{bank_number};
ghost use Rattle.rfm_counts.specs.Held.{Held, HasSameLimits, lowered, is_high_at};
ghost use Rattle.rfm_counts.specs.Standing.{count_rules};
ghost use Rattle.speed_bin.specs.Log.{Log, raa};
ghost use Rattle.speed_bin.specs.Rules.{rule_9, is_wanted, first_failing};
ghost use Rattle.speed_bin.specs.declared.header.Header.{Header as AnyHeader};
ghost use Rattle.judged_logs.specs.Rolling.{RollingFor};

use command_words::{Bank, BankAddr, Command};
use speed_bin::Settings;
use std::marker::Model;

/// The rolling activation counts (RAA) of the banks of a log in which nothing caps them: where rule 9 is not judged, a
/// bank may be activated at RAAMMT too. No count is greater than the number of commands, and 64 bits hold that.
#[derive(Drop)]
pub(crate) struct Rolling {
    raaimt: u32,
    raammt: u32,
    // By the number of the bank. There is room for 8 groups; with 4 the upper half stays 0.
    counts: [u64; 32],
}

impl Model for Rolling {
    ghost use Rattle.rfm_counts.specs.Held.{Held};

    ghost Value = { Held };

    ghost view = { λ s. record { raaimt = s.raaimt; raammt = s.raammt; counts = s.counts } };
}

impl Rolling {
    // All counts are 0.
    pub(crate) fn new(settings: &Settings) -> Self
        ensures { (h : AnyHeader) → h.settings ≡ settings.now → RollingFor result h [] }
    {
        Rolling {
            raaimt: settings.raaimt,
            raammt: settings.raammt,
            counts: [0; 32],
        }
    }

    // The least of the rules 9 and 10 that fails where the command is issued.
    pub(crate) fn broken(&self, command: &Command) -> Option<u8>
        ensures { (h : AnyHeader) (log : Log) → RollingFor self.now h log → result ≡ first_failing 9 (count_rules h command.now log) }
    {
        match command {
            Command::Act(bank, _) => failing(self.may_activate(*bank), 9),
            Command::RfmSb(address) => failing(self.is_wanted_at(*address), 10),
            Command::Rd(..) => None,
            Command::Wr(..) => None,
            Command::PrePb(_) => None,
            Command::PreSb(_) => None,
            Command::PreAb => None,
            Command::RefAb => None,
            Command::RefSb(_) => None,
            Command::RfmAb => None,
            Command::Mrw(_) => None,
            Command::Ecs => None,
            Command::Nop => None,
        }
    }

    // Whether an ACT of the bank keeps rule 9.
    fn may_activate(&self, bank: Bank) -> bool
        ensures { (h : AnyHeader) (log : Log) (row : ℕ) → RollingFor self.now h log
            → result ≡ rule_9 h (Command.Act bank row) log }
    {
        self.counts[bank.number() as usize] < u64::from(self.raammt)
    }

    // Whether an RFMsb with this address is wanted.
    fn is_wanted_at(&self, address: BankAddr) -> bool
        ensures { (h : AnyHeader) (log : Log) → RollingFor self.now h log → result ≡ is_wanted h (Command.RfmSb address) log }
    {
        self.is_high_at(address.get())
    }

    // Whether an RFMab is wanted: some bank is at RAAIMT or more.
    pub(crate) fn is_wanted(&self) -> bool
        ensures { (h : AnyHeader) (log : Log) → RollingFor self.now h log → result ≡ is_wanted h Command.RfmAb log }
    {
        for address in 0..4 {
            if self.is_high_at(address) {
                return true;
            }
        }
        false
    }

    // Whether some bank with this address is at RAAIMT or more.
    fn is_high_at(&self, address: u8) -> bool
        requires { address < 4 }
        ensures { result ≡ is_high_at self.now address }
    {
        for group in 0..8 {
            if self.counts[group * 4 + address as usize] >= u64::from(self.raaimt) {
                return true;
            }
        }
        false
    }

    // Adds one to the count of the bank, unless it is the greatest number.
    fn add(&mut self, bank: Bank)
        ensures limits { HasSameLimits self.old self.new }
        ensures counts { slice_index self.old.counts (bank_number bank) < 2 ^ 64 - 1
            → self.new.counts ≡ slice_set self.old.counts (bank_number bank) (slice_index self.old.counts (bank_number bank) + 1) }
    {
        let number = bank.number() as usize;
        if self.counts[number] < u64::MAX {
            self.counts[number] += 1;
        }
    }

    // Takes from the count of each bank, or of each with this address, and stops at 0.
    fn lower(&mut self, address: Option<BankAddr>, by: u32)
        ensures limits { HasSameLimits self.old self.new }
        ensures counts { (b : ℕ) → b < 32 → slice_index self.new.counts b ≡ lowered address by b (slice_index self.old.counts b) }
    {
        for number in 0..32 {
            let covered = match address {
                Some(own) => number % 4 == own.get() as usize,
                None => true,
            };
            if covered {
                self.counts[number] = self.counts[number].saturating_sub(u64::from(by));
            }
        }
    }

    // Appends the command to the log: an ACT adds one, an RFM takes RAAIMT, a REF half of it.
    pub(crate) fn issue(&mut self, command: &Command)
        ensures { (h : AnyHeader) (clock : ℕ) (log : Log) → RollingFor self.old h log → length log < 2 ^ 64 - 1
            → RollingFor self.new h (record { clock = clock; command = command.now } ∷ log) }
    {
        match command {
            Command::Act(bank, _) => self.add(*bank),
            Command::RfmAb => self.lower(None, self.raaimt),
            Command::RfmSb(address) => self.lower(Some(*address), self.raaimt),
            Command::RefAb => self.lower(None, self.raaimt / 2),
            Command::RefSb(address) => self.lower(Some(*address), self.raaimt / 2),
            Command::Rd(..)
            | Command::Wr(..)
            | Command::PrePb(_)
            | Command::PreSb(_)
            | Command::PreAb
            | Command::Mrw(_)
            | Command::Ecs
            | Command::Nop => {}
        }
    }
}

// The number of a rule that does not hold.
fn failing(holds: bool, rule: u8) -> Option<u8>
    ensures { result ≡ first_failing rule (holds ∷ []) }
{
    if holds { None } else { Some(rule) }
}
