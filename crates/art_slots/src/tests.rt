//! Takes the records of a thousand keys apart. Each pattern names every field of its type, so a new
//! field does not compile until a test looks at it.
ghost use Rattle.std.specs.Prelude.{◌<◌};

use crate::dense::Dense;
use crate::halves::{Block, Halves};
use crate::leaf_id::LeafId;
use crate::slots::{Slot, Slots};
use crate::store::Store;
use crate::table::{Cell, Table};
use crate::words::Words;
use std::alloc::Global;
use std::process::Abort;

type Key = [u8; 3];

/// Returns the key of a place less than 1,000, with a byte for each of its digits.
fn key_of(place: usize) -> Key {
    let byte_of = |digit: usize| ((digit % 10) as u8).wrapping_mul(37).wrapping_add(100);
    [byte_of(place / 100), byte_of(place / 10), byte_of(place)]
}

/// Adds a cell with a key.
fn add(rt: &impl Abort, table: &mut Table<Key>, key: Key) {
    let id = table.len();
    table.grow(id + 1).expect(rt, "memory");
    table.put(id, key);
}

#[test]
fn a_table_taken_apart(rt: HostRuntime) {
    let mut table = Table::new(rt.alloc());
    for place in 0..1000 {
        add(&rt, &mut table, key_of(place));
    }
    table.grow(1001).expect(&rt, "memory");
    let Table { cells, used } = table;
    let Dense { slab } = cells;
    assert!(rt; used == 1000 && slab.len() == 1001);
    for place in 0..1000 {
        let Some(Cell::Full(key)) = slab.get(place) else {
            panic!(rt; "a full cell");
        };
        assert!(rt; *key == key_of(place));
    }
    assert!(rt; matches!(slab.get(1000), Some(Cell::Empty)));
}

#[test]
fn a_store_taken_apart(rt: HostRuntime) {
    let mut store = Store::new(rt.alloc());
    for place in 0..1002 {
        store.reserve(1).expect(&rt, "memory");
        let id = store.fill(key_of(place));
        assert!(rt; id == place);
    }
    for place in 1000..1002 {
        assert!(rt; store.has(place));
        store.remove(place);
    }
    let Store { slots, reserved } = store;
    let Slots {
        slab,
        free,
        spare,
        top,
    } = slots;
    assert!(rt; slab.len() == 1002 && spare == 2 && top == 1002);
    assert!(rt; free == Some(1001) && reserved <= slab.capacity().wrapping_sub(1002));
    for place in 0..1000 {
        let Some(Slot::Used(key)) = slab.get(place) else {
            panic!(rt; "a record");
        };
        assert!(rt; *key == key_of(place));
    }
    assert!(rt; matches!(slab.get(1000), Some(Slot::Spare(None))));
    assert!(rt; matches!(slab.get(1001), Some(Slot::Spare(Some(1000)))));
}

/// Returns the number at a place of a block.
fn half_at(block: &Block, place: usize) -> u32
    requires { place < 64 }
{
    let Block { halves } = block;
    halves[place]
}

#[test]
fn words_taken_apart(rt: HostRuntime) {
    let mut words = Words::new(rt.alloc());
    words.grow(1000).expect(&rt, "memory");
    for i in 0..1000 {
        assert!(rt; i < words.len());
        words.write(i, i);
    }
    let Words { low, high } = words;
    assert!(rt; high.len() == 0);
    let Halves { blocks } = low;
    let Dense { slab } = blocks;
    assert!(rt; slab.len() == 16);
    for place in 0..1024 {
        let half = half_at(slab.get(place / 64).expect(&rt, "a block"), place % 64);
        assert!(rt; half as usize == if place < 1000 { place } else { 0 });
    }
}

#[test]
fn numbers_of_two_halves(rt: HostRuntime) {
    let mut low = Halves::new(rt.alloc());
    low.grow(1).expect(&rt, "memory");
    let mut high = Halves::new(rt.alloc());
    high.grow(1).expect(&rt, "memory");
    assert!(rt; high.len() == 64);
    high.write(3, 2);
    let mut words = Words { low, high };
    assert!(rt; words.len() == 64);
    assert!(rt; words.read(3) == 2 << 32 && words.read(4) == 0);
    words.write(3, 5);
    assert!(rt; words.read(3) == 5);
}

/// Returns the number that [`mixed_list`] has at an index.
fn number_at(i: usize) -> usize {
    if i < 128 { i | (i << 40) } else { i }
}

/// Returns a list of 192 numbers. The first two of its three blocks have high halves.
fn mixed_list(rt: &impl Abort, alloc: Global) -> Words {
    let mut low = Halves::new(alloc);
    low.grow(3).expect(rt, "memory");
    for i in 0..192 {
        assert!(rt; i < low.len());
        low.write(i, i as u32);
    }
    let mut high = Halves::new(alloc);
    high.grow(2).expect(rt, "memory");
    for i in 0..128 {
        assert!(rt; i < high.len());
        high.write(i, (i as u32) << 8);
    }
    assert!(rt; low.len() == 192 && high.len() == 128);
    Words { low, high }
}

/// Returns where the number at `place` was before the number at `from` was moved to `to`.
fn place_before(place: usize, from: usize, to: usize) -> usize {
    if place == to {
        from
    } else if to < place && place <= from {
        place - 1
    } else if from <= place && place < to {
        place + 1
    } else {
        place
    }
}

/// Moves a number of a block, and compares all numbers of the list.
fn check_move(rt: &impl Abort, alloc: Global, block: usize, from: usize, to: usize) {
    let mut words = mixed_list(rt, alloc);
    assert!(rt; block < 3 && from < 64 && to < 64 && words.len() == 192);
    if to < from {
        words.move_down(block, from, to);
    } else {
        words.move_up(block, from, to);
    }
    for i in 0..192 {
        let place = if i / 64 == block {
            place_before(i % 64, from, to)
        } else {
            i % 64
        };
        assert!(rt; i < words.len());
        assert!(rt; words.read(i) == number_at((i / 64 * 64).wrapping_add(place)));
    }
}

#[test]
fn numbers_moved_in_a_block(rt: HostRuntime) {
    for block in 0..3 {
        check_move(&rt, rt.alloc(), block, 40, 3);
        check_move(&rt, rt.alloc(), block, 3, 40);
        check_move(&rt, rt.alloc(), block, 63, 0);
        check_move(&rt, rt.alloc(), block, 0, 63);
        check_move(&rt, rt.alloc(), block, 17, 17);
    }
    let mut words = mixed_list(&rt, rt.alloc());
    assert!(rt; words.len() == 192);
    words.move_down(1, 17, 17);
    assert!(rt; words.read(81) == number_at(81));
}

#[test]
fn halves_of_a_block(rt: HostRuntime) {
    let words = mixed_list(&rt, rt.alloc());
    assert!(rt; words.len() == 192);
    let (low, high) = words.halves(1);
    assert!(rt; low.len() == 64 && low[0] == 64 && low[2] == 66 && low[63] == 127);
    assert!(rt;
        high.len() == 64 && high[0] == 64 << 8 && high[2] == 66 << 8 && high[63] == 127 << 8
    );
    let (low, high) = words.halves(2);
    assert!(rt; low.len() == 64 && low[0] == 128 && low[63] == 191 && high.len() == 0);
}

#[test]
fn a_number_taken_apart(rt: HostRuntime) {
    let LeafId { number } = LeafId::new(7);
    assert!(rt; number == 7);
}
