//! The registers of a device.
ghost use Rattle.std.specs.Prelude.{◌≡◌, ◌+◌, ◌*◌, OnOk, OnErr};
ghost use Rattle.mode_registers.specs.Held.{unwritten, written, settings_in, pair_at, mode_in};
ghost use Rattle.mode_registers.specs.Outcome.{outcome};

use command_words::Mrw;
use speed_bin::{RefreshMode, Settings};
use std::marker::Model;

/// Why a write of a register is refused.
#[derive(Clone, Copy, Debug, PartialEq, Eq)]
pub enum RegisterFault {
    /// The address is not 64 to 71.
    NoRegister = 1,
    /// Bit 7 of register 68 is set, or register 69 is below 8.
    BadValue = 2,
}

/// The contents of the registers 64 to 71, as far as they were written.
#[derive(Clone, Copy, Debug, PartialEq, Eq)]
pub struct Registers {
    held: [Option<u8>; 8],
}

impl Model for Registers {
    ghost use Rattle.std.specs.Prelude.{ℕ, List, Option};

    ghost Value = { List (Option ℕ) };

    ghost view = { λ r. r.held };

    ghost inverse = { λ held. record { held = held } };
}

impl Registers {
    /// None is written.
    pub fn new() -> Self
        ensures { result ≡ unwritten }
    {
        Registers { held: [None; 8] }
    }

    /// Writes a register. A refusal leaves all as it was.
    pub fn apply(&mut self, write: Mrw) -> Result<(), RegisterFault>
        ensures outcome { result ≡ outcome write }
        ensures is_written { OnOk result (self.new ≡ written self.old write) }
        ensures unchanged { OnErr result (self.new ≡ self.old) }
    {
        if write.address < 64 || 71 < write.address {
            return Err(RegisterFault::NoRegister);
        }
        if write.address == 68 && 0x80 <= write.value || write.address == 69 && write.value < 8 {
            return Err(RegisterFault::BadValue);
        }
        self.held[usize::from(write.address - 64)] = Some(write.value);
        Ok(())
    }

    /// The settings that the registers hold. `None` as long as any of the eight writes is missing, and only then.
    pub fn settings(&self) -> Option<Settings>
        ensures { result ≡ settings_in self.now }
    {
        let [
            rows_low,
            rows_high,
            ath,
            eth,
            high,
            raaimt,
            raammt,
            ecs_every,
        ] = self.held;
        let rows = joined(rows_high?, rows_low?) + 1;
        let (ath, eth, high) = (ath?, eth?, high?);
        Some(Settings {
            rows,
            ath: joined(high & 3, ath),
            eth: joined(high >> 2 & 3, eth),
            raaimt: u32::from(raaimt?),
            raammt: joined(high >> 4 & 3, raammt?),
            refresh: mode_in(high),
            ecs_every: u32::from(ecs_every?),
        })
    }
}

fn joined(high: u8, low: u8) -> u32
    ensures { result ≡ 256 * high + low }
{
    u32::from(high) * 256 + u32::from(low)
}

fn mode_in(high: u8) -> RefreshMode
    ensures { result ≡ mode_in high }
{
    if high >> 6 & 1 == 1 {
        RefreshMode::Same
    } else {
        RefreshMode::All
    }
}
