//! Takes leaves apart. Each pattern names every field of its type, so a new field does not compile
//! until a test looks at it.
ghost use Rattle.std.specs.Prelude.{◌<◌};

use crate::chain::{Chain, Link};
use crate::following::Following;
use crate::leaves::{Leaf, Leaves};
use crate::row::{Position, Row};
use crate::rows::Rows;
use crate::run::Run;
use art_slots::{LeafId, Words};
use std::process::Abort;

type Key = [u8; 3];

/// Returns the key of a number less than 1,000, with a byte for each of its digits.
fn key_of(index: usize) -> Key {
    let byte_of = |digit: usize| ((digit % 10) as u8).wrapping_mul(37).wrapping_add(100);
    [byte_of(index / 100), byte_of(index / 10), byte_of(index)]
}

/// Adds the pair of a number at the end.
fn push(rt: &impl Abort, leaves: &mut Leaves<Key, usize>, index: usize) {
    leaves.reserve_end(1).expect(rt, "memory");
    leaves.push(key_of(index), index);
}

/// Returns the number at an index.
fn number_at(rt: &impl Abort, words: &Words, i: usize) -> usize {
    assert!(rt; i < words.len());
    words.read(i)
}

/// Asserts that a row has this number at an index, with no high half, and that the number's cell
/// tells the row.
fn assert_cell(rt: &impl Abort, rows: &Rows, row: usize, index: usize, number: usize) {
    let Some(
        Row {
            low,
            high,
            count: _,
        },
    ) = rows.get(row)
    else {
        panic!(rt; "a row");
    };
    assert!(rt; high.is_empty() && index < low.len());
    assert!(rt; low[index] as usize == number);
    assert!(rt; number_at(rt, &rows.owners, number) == row);
}

/// Asserts that a row has its own 64 cells in order, and is linked to the rows beside it. All its
/// cells are in use, or 40 if it is the last row.
fn assert_row(rt: &impl Abort, rows: &Rows, number: usize) {
    let Some(Link { item, prev, next }) = rows.counts.records.get(number) else {
        panic!(rt; "a row");
    };
    assert!(rt; *prev == number.checked_sub(1));
    match next {
        Some(next) => assert!(rt; *next == number.wrapping_add(1) && *item == 64),
        None => assert!(rt; number == 15 && *item == 40),
    }
    for index in 0..64usize {
        let cell = number.wrapping_mul(64).wrapping_add(index);
        assert_cell(rt, rows, number, index, cell);
        assert!(rt; number_at(rt, &rows.cells, cell) == cell);
    }
}

#[test]
fn leaves_taken_apart(rt: HostRuntime) {
    let mut leaves = Leaves::new(rt.alloc());
    for index in 0..1000 {
        push(&rt, &mut leaves, index);
    }
    let Leaf { key, value } = Leaf { key: 1, value: 2 };
    assert!(rt; key < value);
    let Leaves { records, rows } = leaves;
    assert!(rt; records.len() == 1088 && records.used() == 1000);
    drop(records);
    for number in 0..16 {
        assert_row(&rt, &rows, number);
    }
    let Rows {
        counts,
        cells,
        owners,
        ready,
    } = rows;
    assert!(rt; ready == 17 && cells.len() == 1088 && owners.len() == 1088);
    drop(cells);
    drop(owners);
    let Chain {
        records,
        first,
        last,
    } = counts;
    assert!(rt; records.used() == 16 && records.spare() == 1);
    assert!(rt; first == Some(0) && last == Some(15));
    drop(records);
}

#[test]
fn a_row_cut_in_half(rt: HostRuntime) {
    let mut leaves = Leaves::new(rt.alloc());
    for index in 0..64 {
        push(&rt, &mut leaves, index);
    }
    leaves.reserve(1).expect(&rt, "memory");
    let first = leaves.first();
    let id = leaves.insert(first, Position::unknown(), key_of(64), 64);
    assert!(rt; id.number() == 64);
    // The upper half of row 0 is in row 1, and half of the cells of row 1 are in row 0.
    assert_cell(&rt, &leaves.rows, 0, 0, 0);
    assert_cell(&rt, &leaves.rows, 0, 1, 64);
    for index in 2..33usize {
        assert_cell(&rt, &leaves.rows, 0, index, index.wrapping_sub(1));
    }
    for index in 33..64usize {
        assert_cell(&rt, &leaves.rows, 0, index, index.wrapping_add(32));
    }
    for index in 0..32usize {
        assert_cell(&rt, &leaves.rows, 1, index, index.wrapping_add(32));
        assert_cell(
            &rt,
            &leaves.rows,
            1,
            index.wrapping_add(32),
            index.wrapping_add(96),
        );
    }
    let mut following = leaves.following(id);
    assert!(rt; leaves.next_in(id, &mut following) == Some(LeafId::new(1)));
    let Following {
        run,
        row,
        first,
        rest,
    } = following;
    let Run { low } = run;
    assert!(rt; row == Some(1) && low.len() == 30 && low[0] == 2 && low[29] == 31);
    assert!(rt; first == None && rest.low.len() == 0);
    let taken = leaves.take_first();
    assert!(rt; taken == Some((key_of(0), 0)));
    let taken = leaves.take_first();
    assert!(rt; taken == Some((key_of(64), 64)));
    let taken = leaves.take_last();
    assert!(rt; taken == Some((key_of(63), 63)));
}
