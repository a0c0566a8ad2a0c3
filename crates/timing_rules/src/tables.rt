//! Tables of clocks: until when commands of a kind are blocked, in each group or bank. There is room for 8 groups; with 4
//! the upper half stays empty.
ghost use Rattle.std.specs.Prelude.{ℕ, ◌≡◌, ◌<◌, ◌^◌, ◌==◌, length, slice_index, max, if◌then◌else◌};
ghost use Rattle.command_words.specs.Command.{bank_number};
ghost use Rattle.timing_rules.specs.Reach.{blocked_until, most_below};
ghost use Rattle.timing_rules.specs.Scope.{IsScope, is_within};

use crate::Clock;
use crate::scope::{Scope, is_within};
use command_words::Bank;

/// A kept clock, or the one so many clocks behind `clock` where that is later and any are asked.
#[inline(always)]
pub(crate) fn raised(kept: Clock, clock: Clock, clocks: u32) -> Clock
    requires { clock < 2 ^ 48 }
    ensures { result ≡ max (blocked_until clock clocks) kept }
{
    if clocks == 0 {
        return kept;
    }
    (clock + clocks as u64).max(kept)
}

/// The entry of the group of a bank.
#[inline(always)]
pub(crate) fn in_group(table: &[Clock; 8], bank: &Bank) -> Clock
    ensures entry { result ≡ slice_index table.now bank.now.group }
    ensures in_range { bank.now.group < 8 }
{
    table[bank.group.get() as usize]
}

/// The entry of a bank.
#[inline(always)]
pub(crate) fn in_bank(table: &[Clock; 32], bank: &Bank) -> Clock
    ensures entry { result ≡ slice_index table.now (bank_number bank.now) }
    ensures in_range { bank_number bank.now < 32 }
{
    table[bank.number() as usize]
}

/// The latest entry of the banks of the scope, 0 where it has none.
pub(crate) fn latest(table: &[Clock; 32], scope: Scope) -> Clock
    ensures { result ≡ most_below 32 (λ b. if is_within scope b then slice_index table.now b else 0) }
{
    let mut most = 0;
    'banks: for b in 0..32_u8 {
        most = entry_within(table, scope, b).max(most);
    }
    most
}

// The entry of bank b where it is one of the scope, otherwise 0.
#[inline(always)]
fn entry_within(table: &[Clock; 32], scope: Scope, b: u8) -> Clock
    requires { b < 32 }
    ensures { result ≡ (if is_within scope b then slice_index table.now b else 0) }
{
    if is_within(scope, b) {
        table[b as usize]
    } else {
        0
    }
}

/// Raises the entry of the group.
#[inline(always)]
pub(crate) fn raise_group(table: &mut [Clock; 8], group: u8, clock: Clock, clocks: u32)
    requires group { group < 8 }
    requires clock { clock < 2 ^ 48 }
    ensures long { length table.new ≡ length table.old }
    ensures entries { (g : ℕ) → g < 8 → slice_index table.new g ≡ max (blocked_until clock (if group == g then clocks else 0)) (slice_index table.old g) }
{
    if clocks == 0 {
        return;
    }
    let entry = raised(table[group as usize], clock, clocks);
    table[group as usize] = entry;
}

/// Raises the entries of the banks of the scope.
#[inline(always)]
pub(crate) fn raise_banks(table: &mut [Clock; 32], scope: Scope, clock: Clock, clocks: u32)
    requires scope { IsScope scope }
    requires clock { clock < 2 ^ 48 }
    ensures long { length table.new ≡ length table.old }
    ensures entries { (b : ℕ) → b < 32 → slice_index table.new b ≡ max (blocked_until clock (if is_within scope b then clocks else 0)) (slice_index table.old b) }
{
    if clocks == 0 {
        return;
    }
    match scope {
        Scope::Bank(bank) => raise_bank(table, bank, clock, clocks),
        Scope::Address(_) => raise_each(table, scope, clock, clocks),
        Scope::All => raise_each(table, scope, clock, clocks),
        Scope::Nothing => {}
    }
}

#[inline(always)]
fn raise_bank(table: &mut [Clock; 32], bank: u8, clock: Clock, clocks: u32)
    requires bank { bank < 32 }
    requires clock { clock < 2 ^ 48 }
    ensures long { length table.new ≡ length table.old }
    ensures entries { (b : ℕ) → b < 32 → slice_index table.new b ≡ max (blocked_until clock (if bank == b then clocks else 0)) (slice_index table.old b) }
{
    let entry = raised(table[bank as usize], clock, clocks);
    table[bank as usize] = entry;
}

fn raise_each(table: &mut [Clock; 32], scope: Scope, clock: Clock, clocks: u32)
    requires { clock < 2 ^ 48 }
    ensures long { length table.new ≡ length table.old }
    ensures entries { (b : ℕ) → b < 32 → slice_index table.new b ≡ max (blocked_until clock (if is_within scope b then clocks else 0)) (slice_index table.old b) }
{
    'banks: for b in 0..32_u8 {
        let entry = raised(table[b as usize], clock, asked_of(scope, b, clocks));
        table[b as usize] = entry;
    }
}

// So many clocks where bank b is one of the scope, otherwise 0.
#[inline(always)]
fn asked_of(scope: Scope, b: u8, clocks: u32) -> u32
    ensures { result ≡ (if is_within scope b then clocks else 0) }
{
    if is_within(scope, b) { clocks } else { 0 }
}
