ghost use Rattle.std.specs.Prelude.{◌≡◌};

use crate::{RowOrder, stands};
use command_words::Row;
use rand_core::utils::NextWord;
use rand_pcg::Pcg32;
use std::alloc::Global;
use std::test::Fail;

const LEVELS: u32 = 110;

// Raises the row, or clears it where its count has no level above it. False where there is no such row.
fn change(order: &mut RowOrder, rows: u32, row: Row, raised: bool) -> bool
    requires sizes { (order.old.rows ≡ rows) × (order.old.levels ≡ 110) }
    ensures sizes { (order.new.rows ≡ rows) × (order.new.levels ≡ 110) }
{
    if row.get() >= rows {
        return false;
    }
    stands(order);
    if raised && order.count(row) < LEVELS - 1 {
        order.raise(row);
    } else {
        order.clear(row);
    }
    true
}

// The first of the greatest after these changes: each of a row, up or down.
fn greatest_after(alloc: Global, rows: u32, changes: &[(u32, bool)]) -> Option<(u32, u32)> {
    if rows == 0 || rows > 64 {
        return None;
    }
    let mut order = RowOrder::new(alloc, rows, LEVELS).ok()?;
    for (number, raised) in changes {
        if !change(&mut order, rows, Row::new(*number)?, *raised) {
            return None;
        }
    }
    let (row, count) = order.greatest();
    Some((row.get(), count))
}

#[test]
fn the_first_of_the_greatest(rt: HostRuntime) {
    let changes = [
        (1, true),
        (0, true),
        (1, false),
        (0, true),
        (0, false),
        (1, true),
    ];
    for (count, want) in [
        (0, (0, 0)),
        (1, (1, 1)),
        (2, (1, 1)),
        (3, (0, 1)),
        (4, (0, 2)),
        (5, (1, 0)),
        (6, (1, 1)),
    ] {
        let found = greatest_after(rt.alloc(), 2, &changes[..count]);
        assert_eq!(rt; found, Some(want));
    }
}

#[test]
fn counts_go_up_to_the_highest_level(rt: HostRuntime) {
    let mut changes = [(0, true); 180];
    changes[109] = (1, true);
    for (count, want) in [(63, 63), (64, 64), (65, 65), (109, 109), (110, 109)] {
        let found = greatest_after(rt.alloc(), 2, &changes[..count]);
        assert_eq!(rt; found, Some((0, want)));
    }
    let found = greatest_after(rt.alloc(), 2, &changes[..111]);
    assert_eq!(rt; found, Some((1, 1)));
}

// The plain program: the count of each row, and the number of its last change.
#[derive(Drop)]
struct Tables {
    counts: [u32; 64],
    stamps: [u32; 64],
}

impl Tables {
    // Of the rows with the greatest count the one that was changed least recently, the least of those that never were.
    fn greatest(&self) -> (u32, u32) {
        let mut best = (0, self.counts[0], self.stamps[0]);
        for row in 1u32..64 {
            let count = self.counts[row as usize];
            let stamp = self.stamps[row as usize];
            if count > best.1 || (count == best.1 && stamp < best.2) {
                best = (row, count, stamp);
            }
        }
        (best.0, best.1)
    }
}

// Of so many random changes of 64 rows, the number before the first after which the order and the tables differ.
fn agreed(alloc: Global, changes: u32) -> Option<u32> {
    let mut order = RowOrder::new(alloc, 64, LEVELS).ok()?;
    let mut tables = Tables {
        counts: [0; 64],
        stamps: [0; 64],
    };
    let mut words = Pcg32::new(42, 54);
    for step in 0..changes {
        let number = words.next_word() % 64;
        let row = Row::new(number)?;
        let raised = words.next_word() % 4 != 0;
        if !change(&mut order, 64, row, raised) {
            return None;
        }
        let count = tables.counts[number as usize].saturating_add(1);
        tables.counts[number as usize] = if raised { count } else { 0 };
        tables.stamps[number as usize] = step + 1;
        let (first, count) = order.greatest();
        if (first.get(), count) != tables.greatest() {
            return Some(step);
        }
        if order.count(row) != tables.counts[number as usize] {
            return Some(step);
        }
    }
    Some(changes)
}

#[test]
fn answers_as_the_tables(rt: HostRuntime) {
    assert_eq!(rt; agreed(rt.alloc(), 1000), Some(1000));
}
