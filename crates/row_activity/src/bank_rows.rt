//! The row counters of one bank, and whether one of them is hot.
ghost use Rattle.std.specs.Prelude.{ℕ, [], ◌∷◌, Some, suc, ◌≡◌, ◌≤◌, nat_le, IfOk};
ghost use Rattle.speed_bin.specs.Counters.{cnt};
ghost use Rattle.command_words.specs.Command.{bank_number};
ghost use Rattle.command_words.specs.declared.command.Command.{Command as AnyCommand};
ghost use Rattle.speed_bin.specs.Header.{IsSettings};
ghost use Rattle.command_words.specs.Kinds.{effect, Closes, Manages};
ghost use Rattle.speed_bin.specs.Log.{Log, open_at};
ghost use Rattle.speed_bin.specs.declared.header.Header.{Header as AnyHeader};
ghost use Rattle.row_counts.specs.Held.{HasRow, MayClose, MayMitigate};
ghost use Rattle.row_counts.specs.Standing.{StandsFor as CountsFor};

use command_words::{Bank, Command, Row, covers};
use ddr_io::OutOfMemory;
use row_counts::{BankCounts, laws};
use speed_bin::{Settings, Version};
use std::alloc::Global;

/// What a command does to the row counters of a bank.
#[derive(Clone, Copy)]
pub(crate) enum Touch {
    /// It counts the closing of the open row, if there is one.
    Counts,
    /// It mitigates the tracked row, if its counter is at least ETH.
    Mitigates,
    /// It leaves them.
    Spares,
}

/// The counters of a bank's rows, and whether one of them is at least ATH.
#[derive(Drop)]
pub(crate) struct BankRows {
    counts: BankCounts,
    is_hot: bool,
}

impl Touch {
    ghost use Rattle.row_activity.specs.Standing.{touch_of};

    // A precharge counts and an RFM mitigates in the banks that it covers.
    pub(crate) fn of(command: &Command, bank: &Bank) -> Touch
        ensures { result ≡ touch_of (effect (bank_number bank.now) command.now) }
    {
        if !covers(command, *bank) {
            return Touch::Spares;
        }
        match command {
            Command::PrePb(_) | Command::PreSb(_) | Command::PreAb => Touch::Counts,
            Command::RfmAb | Command::RfmSb(_) => Touch::Mitigates,
            Command::RefAb | Command::RefSb(_) => Touch::Spares,
            Command::Act(..)
            | Command::Rd(..)
            | Command::Wr(..)
            | Command::Mrw(_)
            | Command::Ecs
            | Command::Nop => Touch::Spares,
        }
    }
}

impl BankRows {
    ghost use Rattle.row_activity.specs.Standing.{BankFor, MayTouch, greatest_count, touch_of};

    // Every counter is 0.
    pub(crate) fn new(
        alloc: Global,
        settings: &Settings,
        version: Version,
    ) -> Result<BankRows, OutOfMemory>
        requires ranges { IsSettings settings.now }
        requires thresholds { (suc version.cycle ≤ settings.now.ath) × (settings.now.eth ≤ settings.now.ath) }
        ensures { IfOk result (λ rows. (h : AnyHeader) (b : ℕ) → h.settings ≡ settings.now → h.version ≡ version → BankFor rows h b []) }
    {
        Ok(BankRows {
            counts: BankCounts::new(alloc, settings, version)?,
            is_hot: false,
        })
    }

    // The counter of the row.
    pub(crate) fn count(&self, row: Row) -> u32
        requires { HasRow self.now.counts row }
        ensures { (h : AnyHeader) (b : ℕ) (log : Log) → BankFor self.now h b log → result ≡ cnt h b row log }
    {
        self.counts.count(row)
    }

    // Whether some counter is at least ATH.
    pub(crate) fn is_hot(&self) -> bool
        ensures { result ≡ self.now.is_hot }
    {
        self.is_hot
    }

    // The greatest counter.
    fn greatest(&self) -> u32
        ensures { (h : AnyHeader) (b : ℕ) (log : Log) → CountsFor self.now.counts h b log → result ≡ greatest_count h b log }
    {
        let (row, _) = self.counts.tracked();
        self.counts.count(row)
    }

    // Notes whether some counter is at least ATH.
    fn note_hot(&mut self, ath: u32)
        ensures counts { self.new.counts ≡ self.old.counts }
        ensures hot { (h : AnyHeader) (b : ℕ) (log : Log) → CountsFor self.old.counts h b log
            → self.new.is_hot ≡ nat_le ath (greatest_count h b log) }
    {
        self.is_hot = ath <= self.greatest();
    }

    // Appends a command to the bank's log, with the row that is open in the bank before it.
    pub(crate) fn follow(&mut self, touch: Touch, open_row: Option<Row>, thresholds: &Settings)
        requires { MayTouch touch open_row self.old.counts }
        ensures { (h : AnyHeader) (b clock : ℕ) (command : AnyCommand) (log : Log) → BankFor self.old h b log
            → h.settings ≡ thresholds.now → touch ≡ touch_of (effect b command) → open_row ≡ open_at b log
            → BankFor self.new h b (record { clock = clock; command = command } ∷ log) }
    {
        laws::stays();
        match touch {
            Touch::Counts => {
                if let Some(row) = open_row {
                    self.close(row, thresholds);
                }
            }
            Touch::Mitigates => self.mitigate(thresholds),
            Touch::Spares => {}
        }
    }

    // Counts a closing of the row.
    fn close(&mut self, row: Row, thresholds: &Settings)
        requires { MayClose self.old.counts row }
        ensures { (h : AnyHeader) (b clock : ℕ) (command : AnyCommand) (log : Log) → BankFor self.old h b log
            → h.settings ≡ thresholds.now → effect b command ≡ Closes → open_at b log ≡ Some row
            → BankFor self.new h b (record { clock = clock; command = command } ∷ log) }
    {
        self.counts.close(row);
        self.note_hot(thresholds.ath);
    }

    // Mitigates the tracked row, if its counter is at least ETH.
    fn mitigate(&mut self, thresholds: &Settings)
        requires { MayMitigate self.old.counts }
        ensures { (h : AnyHeader) (b clock : ℕ) (command : AnyCommand) (log : Log) → BankFor self.old h b log
            → h.settings ≡ thresholds.now → effect b command ≡ Manages
            → BankFor self.new h b (record { clock = clock; command = command } ∷ log) }
    {
        laws::stays();
        if thresholds.eth <= self.greatest() {
            self.counts.mitigate();
            self.note_hot(thresholds.ath);
        }
    }
}
