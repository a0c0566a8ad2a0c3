ghost use Rattle.std.specs.Prelude.{◌≡◌, ◌+◌, ◌<◌, ◌≤◌, ◌^◌, length};

use crate::{BankCounts, height};
use command_words::Row;
use rand_core::utils::NextWord;
use rand_pcg::Pcg32;
use speed_bin::{RefreshMode, Settings, Version};
use std::alloc::Global;
use std::test::Fail;

const ONE_ROW: Settings = Settings {
    rows: 1,
    ath: 5,
    eth: 5,
    raaimt: 8,
    raammt: 8,
    refresh: RefreshMode::All,
    ecs_every: 0,
};

const ONE_ROW_AT_THREE: Settings = Settings {
    rows: 1,
    ath: 3,
    eth: 3,
    raaimt: 8,
    raammt: 16,
    refresh: RefreshMode::All,
    ecs_every: 0,
};

const ONE_ROW_AT_SIX: Settings = Settings {
    rows: 1,
    ath: 6,
    eth: 6,
    raaimt: 8,
    raammt: 16,
    refresh: RefreshMode::All,
    ecs_every: 0,
};

const TWO_ROWS: Settings = Settings {
    rows: 2,
    ath: 5,
    eth: 5,
    raaimt: 32,
    raammt: 64,
    refresh: RefreshMode::All,
    ecs_every: 0,
};

const MANY_ROWS: Settings = Settings {
    rows: 64,
    ath: 64,
    eth: 4,
    raaimt: 32,
    raammt: 64,
    refresh: RefreshMode::All,
    ecs_every: 0,
};

// The heights of the rows for the cycles 2, 3, 4 and 5.
fn heights(rows: u32) -> [u32; 4]
    requires { (1 ≤ rows) × (rows ≤ 65536) }
{
    [
        height(rows, 2),
        height(rows, 3),
        height(rows, 4),
        height(rows, 5),
    ]
}

#[test]
fn heights_by_rows_and_cycle(rt: HostRuntime) {
    assert_eq!(rt; heights(1), [0, 0, 0, 0]);
    assert_eq!(rt; heights(2), [1, 1, 2, 3]);
    assert_eq!(rt; heights(3), [1, 2, 3, 4]);
    assert_eq!(rt; heights(4), [2, 3, 4, 6]);
    assert_eq!(rt; heights(8), [3, 5, 7, 9]);
    assert_eq!(rt; heights(16), [4, 6, 9, 12]);
    assert_eq!(rt; heights(64), [6, 10, 14, 18]);
    assert_eq!(rt; heights(1023), [9, 17, 24, 31]);
    assert_eq!(rt; heights(1024), [10, 17, 24, 31]);
    assert_eq!(rt; heights(65_535), [15, 27, 38, 49]);
    assert_eq!(rt; heights(65_536), [16, 27, 38, 49]);
}

// Closes the rows in turn, and stops at one whose count is the bound.
fn close_each(counts: &mut BankCounts, bound: u32, settings: &Settings, rows: &[u32]) -> bool
    requires rows { counts.old.order.rows ≡ settings.now.rows }
    requires levels { bound + 1 ≤ counts.old.order.levels }
    requires changes { counts.old.changes + length rows.now < 2 ^ 48 }
    ensures rows { counts.new.order.rows ≡ counts.old.order.rows }
    ensures levels { counts.new.order.levels ≡ counts.old.order.levels }
    ensures changes { counts.new.changes ≤ counts.old.changes + length rows.now }
{
    for number in rows {
        match Row::new(*number) {
            Some(row) if row.get() < settings.rows && counts.count(row) < bound => counts.close(
                row,
            ),
            _ => return false,
        }
    }
    true
}

#[test]
fn one_row_is_hot_at_the_fifth_closing(rt: HostRuntime) -> Result<(), Fail> {
    let row = Row::new(0).ok_or("row")?;
    let mut counts = BankCounts::new(rt.alloc(), &ONE_ROW, Version::plain())
        .ok()
        .ok_or("memory")?;
    assert!(rt; close_each(&mut counts, 8, &ONE_ROW, &[0, 0, 0, 0]));
    assert_eq!(rt; counts.count(row), 4);
    assert!(rt; !counts.hot());
    assert_eq!(rt; counts.mitigate(), None);
    assert!(rt; close_each(&mut counts, 8, &ONE_ROW, &[0]));
    assert_eq!(rt; counts.tracked(), (row, 5));
    assert!(rt; counts.hot());
    // three more are let through before it is mitigated: the bound is 5 + 0 + 4 - 1
    assert!(rt; close_each(&mut counts, 8, &ONE_ROW, &[0, 0, 0]));
    assert_eq!(rt; counts.tracked(), (row, 8));
    assert!(rt; counts.hot());
    assert_eq!(rt; counts.mitigate(), Some(row));
    assert_eq!(rt; counts.count(row), 0);
    assert!(rt; !counts.hot());
    Ok(())
}

#[test]
fn two_activations_a_cycle(rt: HostRuntime) -> Result<(), Fail> {
    let row = Row::new(0).ok_or("row")?;
    let version = Version::new(2, 4).ok_or("version")?;
    let mut counts = BankCounts::new(rt.alloc(), &ONE_ROW_AT_THREE, version)
        .ok()
        .ok_or("memory")?;
    assert!(rt; close_each(&mut counts, 4, &ONE_ROW_AT_THREE, &[0, 0]));
    assert!(rt; !counts.hot());
    assert!(rt; close_each(&mut counts, 4, &ONE_ROW_AT_THREE, &[0]));
    assert!(rt; counts.hot());
    // one more is let through: the bound is 3 + 0 + 2 - 1
    assert!(rt; close_each(&mut counts, 4, &ONE_ROW_AT_THREE, &[0]));
    assert_eq!(rt; counts.tracked(), (row, 4));
    assert_eq!(rt; counts.mitigate(), Some(row));
    assert_eq!(rt; counts.tracked(), (row, 0));
    Ok(())
}

#[test]
fn five_activations_a_cycle(rt: HostRuntime) -> Result<(), Fail> {
    let row = Row::new(0).ok_or("row")?;
    let version = Version::new(5, 8).ok_or("version")?;
    let mut counts = BankCounts::new(rt.alloc(), &ONE_ROW_AT_SIX, version)
        .ok()
        .ok_or("memory")?;
    assert!(rt; close_each(&mut counts, 10, &ONE_ROW_AT_SIX, &[0, 0, 0, 0, 0]));
    assert!(rt; !counts.hot());
    assert!(rt; close_each(&mut counts, 10, &ONE_ROW_AT_SIX, &[0]));
    assert!(rt; counts.hot());
    // four more are let through: the bound is 6 + 0 + 5 - 1
    assert!(rt; close_each(&mut counts, 10, &ONE_ROW_AT_SIX, &[0, 0, 0, 0]));
    assert_eq!(rt; counts.tracked(), (row, 10));
    assert_eq!(rt; counts.mitigate(), Some(row));
    assert_eq!(rt; counts.mitigate(), None);
    Ok(())
}

#[test]
fn of_two_equal_rows_the_older_is_tracked(rt: HostRuntime) -> Result<(), Fail> {
    let first = Row::new(0).ok_or("row")?;
    let second = Row::new(1).ok_or("row")?;
    let mut counts = BankCounts::new(rt.alloc(), &TWO_ROWS, Version::plain())
        .ok()
        .ok_or("memory")?;
    assert!(rt;
        close_each(
            &mut counts,
            8,
            &TWO_ROWS,
            &[0, 0, 0, 0, 1, 1, 1, 1, 0, 1, 1, 0]
        )
    );
    assert_eq!(rt; counts.tracked(), (second, 6));
    assert_eq!(rt; counts.mitigate(), Some(second));
    assert_eq!(rt; counts.tracked(), (first, 6));
    Ok(())
}

// The plain program: of each row the count and the number of its last change.
#[derive(Drop)]
struct Tables {
    counts: [u32; 64],
    stamps: [u32; 64],
}

impl Tables {
    // Of the rows with the greatest count the one that was changed least recently, the least of those that never were.
    fn tracked(&self) -> (u32, u32) {
        let mut best = (0, self.counts[0], self.stamps[0]);
        for row in 1u32..64 {
            let count = self.counts[row as usize];
            let stamp = self.stamps[row as usize];
            if count > best.1 || (count == best.1 && stamp < best.2) {
                best = (row, count, stamp);
            }
        }
        (best.0, best.1)
    }

    // The row has this count by this change.
    fn put(&mut self, row: u32, count: u32, stamp: u32) {
        if row < 64 {
            self.counts[row as usize] = count;
            self.stamps[row as usize] = stamp;
        }
    }

    fn close(&mut self, row: u32, stamp: u32) {
        if row < 64 {
            self.put(row, self.counts[row as usize].saturating_add(1), stamp);
        }
    }

    fn mitigate(&mut self, eth: u32, stamp: u32) -> Option<u32> {
        let (row, count) = self.tracked();
        if count < eth {
            return None;
        }
        self.put(row, 0, stamp);
        Some(row)
    }
}

// The row that is mitigated, by its number.
fn mitigated(counts: &mut BankCounts) -> Option<u32>
    requires changes { counts.old.changes < 2 ^ 48 }
    ensures rows { counts.new.order.rows ≡ counts.old.order.rows }
    ensures levels { counts.new.order.levels ≡ counts.old.order.levels }
    ensures changes { counts.new.changes ≤ counts.old.changes + 1 }
{
    match counts.mitigate() {
        Some(row) => Some(row.get()),
        None => None,
    }
}

// Of so many random changes, each fourth of them a mitigation, the number before the first after which the counters and
// the tables differ.
fn agreed(alloc: Global, changes: u32) -> Option<u32> {
    let mut counts = BankCounts::new(alloc, &MANY_ROWS, Version::plain()).ok()?;
    let mut tables = Tables {
        counts: [0; 64],
        stamps: [0; 64],
    };
    let mut words = Pcg32::new(42, 54);
    for step in 0..changes {
        let number = words.next_word() % 64;
        if words.next_word() % 4 == 0 {
            if mitigated(&mut counts) != tables.mitigate(MANY_ROWS.eth, step + 1) {
                return Some(step);
            }
        } else {
            if !close_each(&mut counts, 67, &MANY_ROWS, &[number]) {
                return None;
            }
            tables.close(number, step + 1);
        }
        let (row, count) = counts.tracked();
        if (row.get(), count) != tables.tracked() {
            return Some(step);
        }
    }
    Some(changes)
}

#[test]
fn answers_as_the_tables(rt: HostRuntime) {
    assert_eq!(rt; agreed(rt.alloc(), 1000), Some(1000));
}
