//! The counters of the rows of one bank.
ghost use Rattle.std.specs.Prelude.{ℕ, [], ◌∷◌, Some, suc, ◌≡◌, ◌<◌, ◌≤◌, ◌+◌, ◌-◌, ◌^◌, nat_le, IfOk, IfSome, IfNone};
ghost use Rattle.command_words.specs.declared.command.Command.{Command as AnyCommand};
ghost use Rattle.speed_bin.specs.Counters.{cnt, count_of, counters as counters_of, tracked as tracked_in, mitigated};
ghost use Rattle.speed_bin.specs.Header.{IsSettings};
ghost use Rattle.speed_bin.specs.Height.{height_of};
ghost use Rattle.command_words.specs.Kinds.{Closes, Manages, effect};
ghost use Rattle.speed_bin.specs.Log.{Log, open_at};
ghost use Rattle.speed_bin.specs.declared.header.Header.{Header as AnyHeader};
ghost use Rattle.row_counts.specs.Held.{HasRow, IsOneMore, MayClose, MayMitigate};
ghost use Rattle.row_counts.specs.Standing.{StandsFor};

use crate::height;
use command_words::Row;
use ddr_io::OutOfMemory;
use row_order::{RowOrder, same_counts, stands};
use speed_bin::{Settings, Version};
use std::alloc::Global;
use std::marker::Model;

/// How often each row of a bank was closed since its last mitigation.
#[derive(Drop)]
pub struct BankCounts {
    ath: u32,
    eth: u32,
    // the rows with their counts, in the order of their last closing or mitigation
    order: RowOrder,
    // closings and mitigations so far
    changes: u64,
}

impl Model for BankCounts {
    ghost use Rattle.row_counts.specs.Held.{Held, IsBank};

    ghost Value = { Held };

    ghost view = { λ s. record { ath = s.ath; eth = s.eth; order = s.order; changes = s.changes } };

    ghost invariant = { λ s. IsBank (record { ath = s.ath; eth = s.eth; order = s.order; changes = s.changes }) };
}

impl BankCounts {
    /// Every counter is 0. The settings are in the header's ranges, ATH is above the version's cycle, and ETH at most ATH.
    pub fn new(
        alloc: Global,
        settings: &Settings,
        version: Version,
    ) -> Result<BankCounts, OutOfMemory>
        requires ranges { IsSettings settings.now }
        requires thresholds { (suc version.cycle ≤ settings.now.ath) × (settings.now.eth ≤ settings.now.ath) }
        ensures sizes { IfOk result (λ counts. (counts.ath ≡ settings.now.ath) × (counts.order.rows ≡ settings.now.rows) × (counts.changes ≡ 0)) }
        ensures levels { IfOk result (λ counts. counts.order.levels ≡ settings.now.ath + height_of (version.cycle - 1) settings.now.rows + version.cycle) }
        ensures log { IfOk result (λ counts. (h : AnyHeader) (b : ℕ) → h.settings ≡ settings.now → h.version ≡ version → StandsFor counts h b []) }
    {
        let cycle = version.cycle();
        let levels = settings.ath + height(settings.rows, cycle) + cycle;
        let order = RowOrder::new(alloc, settings.rows, levels)?;
        Ok(BankCounts {
            ath: settings.ath,
            eth: settings.eth,
            order,
            changes: 0,
        })
    }

    /// One counted activation: the row was closed. The row is below the bank's rows, its count below
    /// `ath + height(rows, cycle) + cycle - 1`, and there were fewer than 2^48 closings and mitigations.
    pub fn close(&mut self, row: Row)
        requires { MayClose self.old row }
        ensures kept { IsOneMore self.old self.new }
        ensures log { (h : AnyHeader) (b clock : ℕ) (command : AnyCommand) (log : Log) → StandsFor self.old h b log
            → effect b command ≡ Closes → open_at b log ≡ Some row
            → StandsFor self.new h b (record { clock = clock; command = command } ∷ log) }
    {
        same_counts();
        self.changes += 1;
        self.order.raise(row);
    }

    /// How often the row was closed since its last mitigation. The row is below the bank's rows.
    pub fn count(&self, row: Row) -> u32
        requires { HasRow self.now row }
        ensures may_close { result + 1 < self.now.order.levels → self.now.changes < 2 ^ 48 → MayClose self.now row }
        ensures log { (h : AnyHeader) (b : ℕ) (log : Log) → StandsFor self.now h b log → result ≡ cnt h b row log }
    {
        stands(&self.order);
        self.order.count(row)
    }

    /// The row that a mitigation would reset, and its count: of the rows with the greatest count, the one that was
    /// closed or mitigated least recently, and the least of those that never were.
    pub fn tracked(&self) -> (Row, u32)
        ensures inside { HasRow self.now result.0 }
        ensures log { (h : AnyHeader) (b : ℕ) (log : Log) → StandsFor self.now h b log
            → result.0 ≡ tracked_in (counters_of h b log) }
        ensures count_of_log { (h : AnyHeader) (b : ℕ) (log : Log) → StandsFor self.now h b log
            → result.1 ≡ count_of (counters_of h b log) (tracked_in (counters_of h b log)) }
    {
        self.order.greatest()
    }

    /// Whether some row was closed ATH times or more since its last mitigation.
    pub fn hot(&self) -> bool
        ensures log { (h : AnyHeader) (b : ℕ) (log : Log) → StandsFor self.now h b log
            → result ≡ nat_le h.settings.ath (count_of (counters_of h b log) (tracked_in (counters_of h b log))) }
    {
        self.tracked().1 >= self.ath
    }

    /// Resets the tracked row and answers it. `None` exactly where its count is below ETH, and then nothing changes.
    /// There were fewer than 2^48 closings and mitigations.
    pub fn mitigate(&mut self) -> Option<Row>
        requires { MayMitigate self.old }
        ensures unchanged { IfNone result (self.new ≡ self.old) }
        ensures kept { IfSome result (λ row. IsOneMore self.old self.new) }
        ensures row_of_log { (h : AnyHeader) (b : ℕ) (log : Log) → StandsFor self.old h b log
            → result ≡ mitigated h Manages (counters_of h b log) }
        ensures log { (h : AnyHeader) (b clock : ℕ) (command : AnyCommand) (log : Log) → StandsFor self.old h b log
            → effect b command ≡ Manages → StandsFor self.new h b (record { clock = clock; command = command } ∷ log) }
    {
        let (row, count) = self.tracked();
        if count < self.eth {
            return None;
        }
        self.changes += 1;
        self.order.clear(row);
        Some(row)
    }
}
