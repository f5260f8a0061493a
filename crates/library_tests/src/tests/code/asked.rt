//! Counts the stored keys that a call asks for their bytes.
use crate::tests::put;
use blart_keys::AsBytes;
use blart_map::TreeMap;
use std::cell::Cell;
use std::process::Abort;

/// The ten bytes, in no order. The thousand keys are all triples of them.
const BYTES: [u8; 10] = [7, 250, 0, 31, 128, 64, 3, 255, 90, 1];

/// Returns the bytes of the key of a place below 1,000: one for each digit.
fn bytes_of(place: usize) -> [u8; 3] {
    [
        BYTES[place / 100 % 10],
        BYTES[place / 10 % 10],
        BYTES[place % 10],
    ]
}

/// The counts of a round: how often keys were asked for their bytes, and how many keys were.
#[derive(Clone, Copy)]
struct Tally {
    round: usize,
    calls: usize,
    keys: usize,
}

/// Starts the next round with both counts at 0.
fn begin_round(tally: &Cell<Tally>) {
    let round = tally.get().round.wrapping_add(1);
    tally.set(Tally {
        round,
        calls: 0,
        keys: 0,
    });
}

/// A key of three bytes that counts how often it is asked for them.
#[derive(Drop)]
struct Asked<'a> {
    bytes: [u8; 3],
    seen: Cell<usize>,
    tally: &'a Cell<Tally>,
}

impl<'a> AsBytes for Asked<'a> {
    ghost use Rattle.std.specs.Prelude.{⊤};

    ghost bytes = { λ s. s.bytes };

    ghost IsValue = { λ s. ⊤ };

    fn as_bytes(&self) -> &[u8] {
        let mut tally = self.tally.get();
        tally.calls = tally.calls.wrapping_add(1);
        if self.seen.get() != tally.round {
            self.seen.set(tally.round);
            tally.keys = tally.keys.wrapping_add(1);
        }
        self.tally.set(tally);
        &self.bytes
    }

    fn value_law(&self) {}
}

type Map<'a, const P: usize> = TreeMap<Asked<'a>, usize, P>;

/// Makes a thousand insertions. Each but the first reads the bytes of the new key, and of at most
/// one stored key, or of two if the nodes keep less than two bytes of a prefix. The first one need
/// not read its own key.
fn put_thousand<'a, const P: usize>(rt: &impl Abort, map: &mut Map<'a, P>, tally: &'a Cell<Tally>) {
    let most = if P < 2 { 3 } else { 2 };
    for place in 0..1000 {
        begin_round(tally);
        let key = Asked {
            bytes: bytes_of(place),
            seen: Cell::new(0),
            tally,
        };
        put(rt, map, key, place);
        let keys = tally.get().keys;
        assert!(rt; (1 <= keys || place == 0) && keys <= most);
    }
    assert!(rt; map.len() == 1000);
}

/// Checks that a look-up of these bytes, or of their prefixes, finds this value. It asks stored
/// keys for their bytes at most four times, and at least once if it finds one.
fn assert_few<K: AsBytes + Drop, const P: usize>(
    rt: &impl Abort,
    map: &TreeMap<K, usize, P>,
    tally: &Cell<Tally>,
    (query, want): (&[u8], Option<usize>),
    of_front: bool,
) {
    begin_round(tally);
    let found = if of_front {
        map.prefix_get(&query)
    } else {
        map.get(&query)
    };
    let calls = tally.get().calls;
    assert!(rt; found.copied() == want);
    assert!(rt; calls <= 4 && (calls > 0 || want.is_none()));
}

/// Looks up a thousand stored keys, and two thousand that are not stored: 8 is not one of the ten
/// bytes.
fn look_up_thousand<K: AsBytes + Drop, const P: usize>(
    rt: &impl Abort,
    map: &TreeMap<K, usize, P>,
    tally: &Cell<Tally>,
    of_front: bool,
) {
    for place in 0..1000 {
        let [a, b, c] = bytes_of(place);
        assert_few(rt, map, tally, (&[a, b, c], Some(place)), of_front);
        assert_few(rt, map, tally, (&[a, b, 8], None), of_front);
        assert_few(rt, map, tally, (&[a, 8, c], None), of_front);
    }
}

fn asks_few<const P: usize>(rt: &(impl Abort + AllocGlobal)) {
    let tally = Cell::new(Tally {
        round: 0,
        calls: 0,
        keys: 0,
    });
    let mut map = Map::<P>::with_prefix_len(rt.alloc());
    put_thousand(rt, &mut map, &tally);
    look_up_thousand(rt, &map, &tally, false);
    look_up_thousand(rt, &map, &tally, true);
    drop(map);
}

/// With a thousand keys of three bytes, a look-up asks stored keys for their bytes at most four
/// times. An insertion asks at most two keys, one of them its own, or three if nodes keep at most
/// one byte.
#[test]
fn a_map_asks_few_keys(rt: HostRuntime) {
    asks_few::<0>(&rt);
    asks_few::<1>(&rt);
    asks_few::<2>(&rt);
    asks_few::<8>(&rt);
    asks_few::<16>(&rt);
    asks_few::<64>(&rt);
}
