//! What each bank has in the queue.
ghost use Rattle.std.specs.Prelude.{◌≡◌, ℕ, ◌<◌, ◌≤◌, ◌==◌, ◌&&◌, List, length};
ghost use Rattle.command_words.specs.Command.{bank_number};
ghost use Rattle.speed_bin.specs.Log.{Log, open_at};
ghost use Rattle.speed_bin.specs.Counters.{is_row};
ghost use Rattle.speed_bin.specs.declared.header.Header.{Header as AnyHeader};
ghost use Rattle.scheduler.specs.Board.{IsBoardOf};
ghost use Rattle.scheduler.specs.Ledger.{StandsFor as LedgerStandsFor};

use crate::ledger::Ledger;
use command_words::{Bank, Place};
use requests::Waiting;

/// Where in the queue each bank's oldest request stands, and the oldest that lies in its open row.
#[derive(Clone, Copy, Debug, Drop)]
pub(crate) struct Board {
    pub oldest: [Option<usize>; 32],
    pub hit: [Option<usize>; 32],
}

impl Board {
    ghost use Rattle.scheduler.specs.Board.{kept, or_at};

    // One more request, which stands here.
    fn note(&mut self, bank: Bank, at: usize, is_hit: bool)
        ensures oldest { (b : ℕ) → b < 32 → kept self.new.oldest b ≡ or_at (kept self.old.oldest b) (bank_number bank == b) at }
        ensures low { bank_number bank < 32 }
        ensures hit { (b : ℕ) → b < 32 → kept self.new.hit b ≡ or_at (kept self.old.hit b) (bank_number bank == b && is_hit) at }
    {
        let number = bank.number() as usize;
        if self.oldest[number].is_none() {
            self.oldest[number] = Some(at);
        }
        if is_hit && self.hit[number].is_none() {
            self.hit[number] = Some(at);
        }
    }
}

/// One pass over the queue finds what each bank has in it.
pub(crate) fn board_of(queue: &[Waiting], ledger: &Ledger) -> Board
    requires few { length queue.now ≤ 32 }
    ensures { (h : AnyHeader) (log : Log) → LedgerStandsFor ledger.now h log → IsBoardOf result queue.now log }
{
    let mut board = Board {
        oldest: [None; 32],
        hit: [None; 32],
    };
    for (at, waiting) in queue.iter().enumerate() {
        let is_hit = is_open(ledger, &waiting.place);
        board.note(waiting.place.bank, at, is_hit);
    }
    board
}

// Whether the place's row is open in its bank.
fn is_open(ledger: &Ledger, place: &Place) -> bool
    ensures { (h : AnyHeader) (log : Log) → LedgerStandsFor ledger.now h log → result ≡ is_row (open_at (bank_number place.now.bank) log) place.now.row }
{
    match ledger.log.open_row(place.bank) {
        Some(row) => row.get() == place.row.get(),
        None => false,
    }
}
