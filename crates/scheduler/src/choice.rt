//! The candidates of the banks, and which comes first.
ghost use Rattle.std.specs.Prelude.{◌≡◌, ℕ, ◌+◌, ◌<◌, ◌≤◌, List, [], Option, Some, None, slice_get, length, IfSome, IfNone, IsTrue, true, ◌↔◌};
ghost use Rattle.speed_bin.specs.Log.{Log};
ghost use Rattle.speed_bin.specs.declared.header.Header.{Header as AnyHeader};
ghost use Rattle.requests.specs.Queue.{in_bank};
ghost use Rattle.requests.specs.declared.waiting.Waiting.{Waiting as AnyWaiting};
ghost use Rattle.scheduler.specs.Ledger.{StandsFor as LedgerStandsFor};
ghost use Rattle.scheduler.specs.Board.{IsBoardOf, first_at};
ghost use Rattle.scheduler.specs.Choice.{Wants, IsCandidate, IsBest, IsBefore, IsBetterOf, command_for, rank, is_asked};

use crate::Clock;
use crate::board::{Board, board_of};
use crate::ledger::Ledger;
use command_words::Command;
use requests::{Kind, Waiting};

/// What a bank with waiting requests is in need of. At one clock the earlier variant comes first.
#[derive(Clone, Copy, Debug, PartialEq, Eq, Drop)]
pub(crate) enum Class {
    /// The RD or WR of its oldest request in the open row.
    Column,
    /// The ACT for its oldest request.
    Activate,
    /// PREpb, since no request of the bank lies in the open row.
    Precharge,
}

/// A bank's need, and where the request that it is for stands in the queue.
#[derive(Clone, Copy, Debug, Drop)]
pub(crate) struct Wish {
    pub class: Class,
    pub at: usize,
}

/// A wish at its clock, with the number of its request.
#[derive(Clone, Copy, Debug, Drop)]
pub(crate) struct Candidate {
    pub clock: Clock,
    pub class: Class,
    pub at: usize,
    pub id: u64,
}

/// The command that fulfils a wish for the request.
pub(crate) fn command_for(class: Class, waiting: &Waiting) -> Command
    ensures { result ≡ command_for class waiting.now }
{
    let place = &waiting.place;
    match class {
        Class::Column => match waiting.request.kind {
            Kind::Read => Command::Rd(place.bank, place.column),
            Kind::Write => Command::Wr(place.bank, place.column),
        },
        Class::Activate => Command::Act(place.bank, place.row),
        Class::Precharge => Command::PrePb(place.bank),
    }
}

/// Step 2. What a bank asks for, if some request of it waits: with a hit the RD or WR of its oldest hit; open and without a
/// hit PREpb; closed the ACT of the row of its oldest waiting request.
fn wish_of(number: usize, board: &Board, queue: &[Waiting], ledger: &Ledger) -> Option<Wish>
    requires low { number < 32 }
    requires few { length queue.now ≤ 32 }
    requires board { ∥ ((h : AnyHeader) × (log : Log) × (LedgerStandsFor ledger.now h log) × IsBoardOf board.now queue.now log) ∥₁ }
    ensures none { IfNone result (first_at (in_bank number) queue.now ≡ None) }
    ensures inside { IfSome result (λ wish. wish.at < length queue.now) }
    ensures some { IfSome result (λ wish. (h : AnyHeader) (log : Log) → LedgerStandsFor ledger.now h log → IsBoardOf board.now queue.now log → Wants wish.class queue.now number log wish.at) }
{
    let Some(at) = board.oldest[number] else {
        return None;
    };
    if let Some(hit) = board.hit[number] {
        return Some(Wish {
            class: Class::Column,
            at: hit,
        });
    }
    let class = match ledger.log.open_row(waiting_at(queue, at).place.bank) {
        Some(_) => Class::Precharge,
        None => Class::Activate,
    };
    Some(Wish { class, at })
}

// The candidate of the bank with this number, if the bank is asked: its wish at the least clock at which it may be
// fulfilled.
fn candidate_of(
    number: usize,
    asked: &[bool; 32],
    board: &Board,
    queue: &[Waiting],
    ledger: &Ledger,
) -> Option<Candidate>
    requires low { number < 32 }
    requires few { length queue.now ≤ 32 }
    requires ledger { ∥ ((h : AnyHeader) × (log : Log) × (LedgerStandsFor ledger.now h log) × IsBoardOf board.now queue.now log) ∥₁ }
    ensures none { IfNone result (is_asked asked.now number ≡ true → first_at (in_bank number) queue.now ≡ None) }
    ensures some { IfSome result (λ candidate. (h : AnyHeader) (log : Log) → LedgerStandsFor ledger.now h log → IsBoardOf board.now queue.now log
        → IsCandidate h queue.now log ledger.now.from asked.now number candidate) }
{
    if !asked[number] {
        return None;
    }
    let wish = wish_of(number, board, queue, ledger)?;
    let waiting = waiting_at(queue, wish.at);
    let clock = ledger.soonest(&command_for(wish.class, &waiting));
    Some(Candidate {
        clock,
        class: wish.class,
        at: wish.at,
        id: waiting.id,
    })
}

// The request at this place of the queue.
pub(crate) fn waiting_at(queue: &[Waiting], at: usize) -> Waiting
    requires few { length queue.now ≤ 32 }
    requires inside { at < length queue.now }
    ensures { slice_get queue.now at ≡ Some result }
{
    queue[at]
}

/// The candidate with the least clock among the banks that are asked; at one clock RD and WR come before ACT, ACT before
/// PREpb, and then the oldest request. `None` comes where no request of such a bank waits.
pub(crate) fn choose(queue: &[Waiting], ledger: &Ledger, asked: &[bool; 32]) -> Option<Candidate>
    requires few { length queue.now ≤ 32 }
    requires ledger { ∥ ((h : AnyHeader) × (log : Log) × LedgerStandsFor ledger.now h log) ∥₁ }
    ensures none { IfNone result ((b : ℕ) → b < 32 → is_asked asked.now b ≡ true → first_at (in_bank b) queue.now ≡ None) }
    ensures some { IfSome result (λ candidate. (h : AnyHeader) (log : Log) → LedgerStandsFor ledger.now h log
        → IsBest h queue.now log ledger.now.from asked.now candidate) }
{
    let board = board_of(queue, ledger);
    let mut best = None;
    for number in 0..32 {
        best = better_of(best, candidate_of(number, asked, &board, queue, ledger));
    }
    best
}

// The one that comes first; the former where neither does.
fn better_of(best: Option<Candidate>, candidate: Option<Candidate>) -> Option<Candidate>
    ensures { IsBetterOf result best candidate }
{
    match (best, candidate) {
        (Some(former), Some(latter)) => {
            if is_before(&latter, &former) {
                Some(latter)
            } else {
                Some(former)
            }
        }
        (None, latter) => latter,
        (former, None) => former,
    }
}

// Whether the first comes before the second.
fn is_before(first: &Candidate, second: &Candidate) -> bool
    ensures { IsTrue result ↔ IsBefore first.now second.now }
{
    if first.clock != second.clock {
        return first.clock < second.clock;
    }
    let (a, b) = (rank_of(first.class), rank_of(second.class));
    if a != b {
        return a < b;
    }
    first.id < second.id
}

fn rank_of(class: Class) -> u8
    ensures { result ≡ rank class }
{
    match class {
        Class::Column => 0,
        Class::Activate => 1,
        Class::Precharge => 2,
    }
}
