//! How far the refreshes of each address are behind the intervals that passed.
ghost use Rattle.std.specs.Prelude.{◌≡◌, ◌≢◌, ℕ, ◌+◌, ◌/◌, ◌<◌, ◌≤◌, ◌^◌, ◌∷◌, [], IsTrue, IsNone, IfSome, ◌↔◌, slice_index, if◌then◌else◌};
ghost use Rattle.speed_bin.specs.declared.header.Header.{Header as AnyHeader};
ghost use Rattle.speed_bin.specs.Below.{all_below};
ghost use Rattle.command_words.specs.Kinds.{refreshes, is_scrub};
ghost use Rattle.speed_bin.specs.Log.{Log, Issued, refs, scrubs};
ghost use Rattle.speed_bin.specs.Rules.{is_on_time, first_failing};
ghost use Rattle.speed_bin.specs.Timing.{IsClocks};
ghost use Rattle.refresh_plan.specs.Held.{after, scrubs_in_time};
ghost use Rattle.refresh_plan.specs.Standing.{StandsFor, MayIssue, IsAllowed, refresh_rules};

use crate::Due;
use command_words::{BankAddr, Command};
use speed_bin::{Header, RefreshMode};
use std::marker::Model;

/// The refreshes of each address and the ECS commands of a log.
#[derive(Drop)]
pub struct Plan {
    // the refresh interval, in clocks
    interval: u64,
    mode: RefreshMode,
    // one ECS for so many refreshes of address 0
    every: u64,
    // by address
    refreshes: [u64; 4],
    scrubs: u64,
}

impl Model for Plan {
    ghost use Rattle.refresh_plan.specs.Held.{Held, IsBounded};

    ghost Value = { Held };

    ghost view = { λ s. record { interval = s.interval; mode = s.mode; every = s.every; refreshes = s.refreshes; scrubs = s.scrubs } };

    ghost invariant = { λ s. IsBounded s.interval s.refreshes s.scrubs };
}

impl Plan {
    ghost use Rattle.refresh_plan.specs.Debts.{debt, IsNothingDue, IsDueFirst};

    /// Nothing was refreshed or scrubbed.
    pub fn new(header: &Header) -> Self
        requires { IsClocks header.now.timing.nrefi }
        ensures { StandsFor result header.now [] }
    {
        Plan {
            interval: u64::from(header.timing.nrefi),
            mode: header.settings.refresh,
            every: u64::from(header.settings.ecs_every),
            refreshes: [0; 4],
            scrubs: 0,
        }
    }

    /// The refresh intervals that passed before the clock, less the refreshes of the address.
    pub fn debt(&self, address: BankAddr, clock: u64) -> i64
        requires { clock < 2 ^ 48 }
        ensures { (h : AnyHeader) (log : Log) → StandsFor self.now h log → result ≡ debt h clock address log }
    {
        (clock / self.interval) as i64 - self.refreshes[address.get() as usize] as i64
    }

    /// Whether the command may be issued at the clock: afterwards each debt is within 4, the refreshes of the addresses
    /// differ by at most 1, and the ECS commands keep step with the refreshes of address 0.
    pub fn allowed(&self, command: &Command, clock: u64) -> bool
        requires { clock < 2 ^ 48 }
        ensures { (h : AnyHeader) (log : Log) → StandsFor self.now h log → (IsTrue result ↔ IsAllowed h clock command.now log) }
    {
        let counts = self.refreshes_after(command);
        self.is_on_time(&counts, clock) && is_even(&counts) && self.is_in_step(command)
    }

    /// The least of the rules 6 to 8 that fails where the command is issued at the clock: 6 where a debt is not within 4,
    /// 7 where the refreshes of two addresses differ by more than 1, 8 where the ECS commands are out of step with the
    /// refreshes of address 0. `None` exactly where it is allowed.
    pub fn broken(&self, command: &Command, clock: u64) -> Option<u8>
        requires { clock < 2 ^ 48 }
        ensures least { (h : AnyHeader) (log : Log) → StandsFor self.now h log → result ≡ first_failing 6 (refresh_rules h clock command.now log) }
        ensures none { (h : AnyHeader) (log : Log) → StandsFor self.now h log → (IsNone result ↔ IsAllowed h clock command.now log) }
    {
        let counts = self.refreshes_after(command);
        least_broken(
            self.is_on_time(&counts, clock),
            is_even(&counts),
            self.is_in_step(command),
        )
    }

    /// Whether the log may end at the clock: each debt is within 4.
    pub fn allowed_at_end(&self, clock: u64) -> bool
        requires { clock < 2 ^ 48 }
        ensures { (h : AnyHeader) (log : Log) → StandsFor self.now h log
            → result ≡ all_below 4 (λ address. is_on_time h clock address log) }
    {
        self.is_on_time(&self.refreshes, clock)
    }

    /// The refresh that is due at the clock, where a debt is 2 or more. In the mode of same-bank refreshes it is that of
    /// the greatest debt, and of the least such address.
    pub fn due(&self, clock: u64) -> Option<Due>
        requires { clock < 2 ^ 48 }
        ensures none { (h : AnyHeader) (log : Log) → StandsFor self.now h log → (IsNone result ↔ IsNothingDue h clock log) }
        ensures all { (h : AnyHeader) (log : Log) → StandsFor self.now h log → h.settings.refresh ≡ RefreshMode.All
            → IfSome result (λ due. due ≡ Due.All) }
        ensures same { (h : AnyHeader) (log : Log) → StandsFor self.now h log → h.settings.refresh ≡ RefreshMode.Same
            → IfSome result (λ due. IsDueFirst h clock log due) }
    {
        let address = self.most_behind();
        if clock / self.interval < self.refreshes[address.get() as usize] + 2 {
            return None;
        }
        match self.mode {
            RefreshMode::All => Some(Due::All),
            RefreshMode::Same => Some(Due::Same(address)),
        }
    }

    /// The least clock at which a refresh is due.
    pub fn next_due(&self) -> u64
        ensures { (h : AnyHeader) (log : Log) (clock : ℕ) → StandsFor self.now h log
            → ((clock < result) ↔ IsNothingDue h clock log) }
    {
        let address = self.most_behind();
        (self.refreshes[address.get() as usize] + 2) * self.interval
    }

    /// Whether an ECS is due: fewer stand in the log than its refreshes of address 0 allow.
    pub fn ecs_due(&self) -> bool
        ensures { (h : AnyHeader) (log : Log) → StandsFor self.now h log
            → (IsTrue result ↔ ((h.settings.ecs_every ≢ 0) × (scrubs log < refs 0 log / h.settings.ecs_every))) }
    {
        self.every != 0 && self.scrubs < self.refreshes[0] / self.every
    }

    /// Appends the command at the clock to the log.
    pub fn issue(&mut self, clock: u64, command: &Command)
        requires clock { clock < 2 ^ 48 }
        requires allowed { MayIssue self.old clock command.now }
        ensures { (h : AnyHeader) (log : Log) → StandsFor self.old h log → IsAllowed h clock command.now log
            → StandsFor self.new h (record { clock = clock; command = command.now } ∷ log) }
    {
        let counts = self.refreshes_after(command);
        let scrubs = self.scrubs_after(command);
        self.refreshes = counts;
        self.scrubs = scrubs;
    }

    // The refreshes of each address, this command among them.
    fn refreshes_after(&self, command: &Command) -> [u64; 4]
        ensures { (address : ℕ) → address < 4 → slice_index result address ≡ after self.now command.now address }
    {
        let mut counts = self.refreshes;
        for address in 0..4 {
            if refreshes(address, command) {
                counts[address] += 1;
            }
        }
        counts
    }

    // The ECS commands, this command among them.
    fn scrubs_after(&self, command: &Command) -> u64
        ensures { result ≡ self.now.scrubs + (if is_scrub command.now then 1 else 0) }
    {
        if command.is_scrub() {
            self.scrubs + 1
        } else {
            self.scrubs
        }
    }

    // Whether each of these counts is within 4 of the intervals that passed.
    fn is_on_time(&self, counts: &[u64; 4], clock: u64) -> bool
        ensures { IsTrue result ↔ ((address : ℕ) → address < 4
            → (clock / self.now.interval ≤ slice_index counts.now address + 4) × (slice_index counts.now address ≤ clock / self.now.interval + 4)) }
    {
        let passed = clock / self.interval;
        for count in counts {
            if passed.abs_diff(*count) > 4 {
                return false;
            }
        }
        true
    }

    // Whether the ECS commands keep step with the refreshes of address 0.
    fn is_in_step(&self, command: &Command) -> bool
        ensures { result ≡ scrubs_in_time self.now.every self.now.scrubs (slice_index self.now.refreshes 0) command.now }
    {
        let scrub = command.is_scrub();
        if self.every == 0 {
            return !scrub;
        }
        let refresh = refreshes(0, command);
        let places = self.refreshes[0] / self.every;
        (!scrub || self.scrubs < places) && (!refresh || self.scrubs == places)
    }

    // The first address with the fewest refreshes.
    fn most_behind(&self) -> BankAddr
        ensures in_range { result < 4 }
        ensures fewest { (other : ℕ) → other < 4 → slice_index self.now.refreshes result ≤ slice_index self.now.refreshes other }
        ensures first { (other : ℕ) → other < result → slice_index self.now.refreshes result < slice_index self.now.refreshes other }
    {
        let mut best = 0;
        for address in 1..4 {
            if self.refreshes[address as usize] < self.refreshes[best as usize] {
                best = address;
            }
        }
        BankAddr::new(best).unwrap()
    }
}

// The least of the rules 6 to 8 that does not hold.
fn least_broken(on_time: bool, even: bool, in_step: bool) -> Option<u8>
    ensures { result ≡ first_failing 6 (on_time ∷ even ∷ in_step ∷ []) }
{
    match (on_time, even, in_step) {
        (false, _, _) => Some(6),
        (true, false, _) => Some(7),
        (true, true, false) => Some(8),
        (true, true, true) => None,
    }
}

// Whether no two of these counts differ by more than 1.
fn is_even(counts: &[u64; 4]) -> bool
    ensures { IsTrue result ↔ ((a : ℕ) → a < 4 → (b : ℕ) → b < 4 → slice_index counts.now a ≤ slice_index counts.now b + 1) }
{
    for count in counts {
        if !is_close_to_all(*count, counts) {
            return false;
        }
    }
    true
}

// Whether the count is at most 1 above each of these.
fn is_close_to_all(count: u64, counts: &[u64; 4]) -> bool
    ensures { IsTrue result ↔ ((b : ℕ) → b < 4 → count ≤ slice_index counts.now b + 1) }
{
    for other in counts {
        if count.saturating_sub(*other) > 1 {
            return false;
        }
    }
    true
}

// Whether the command refreshes the banks with this address.
fn refreshes(address: usize, command: &Command) -> bool
    ensures { result ≡ refreshes address command.now }
{
    match command {
        Command::RefAb => true,
        Command::RefSb(own) => own.get() as usize == address,
        _ => false,
    }
}
