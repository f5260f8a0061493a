//! Tests of when keys and values are dropped.
use crate::tests::put;
use blart_keys::{AsBytes, NoPrefixesBytes};
use blart_map::TreeMap;
use std::cell::Cell;
use std::iter::{DoubleEndedIterator, IntoIterator, Iterator};
use std::process::Abort;

/// A key of one byte that counts each drop.
struct Marked<'a> {
    bytes: [u8; 1],
    drops: &'a Cell<usize>,
}

impl Drop for Marked<'_> {
    fn drop(self) {
        let Marked { bytes: _, drops } = self;
        drops.set(drops.get().wrapping_add(1));
    }
}

impl AsBytes for Marked<'_> {
    ghost use Rattle.std.specs.Prelude.{◌≡◌, length};

    ghost bytes = { λ s. s.bytes };

    ghost IsValue = { λ s. length s.bytes ≡ 1 };

    fn as_bytes(&self) -> &[u8] {
        &self.bytes
    }

    fn value_law(&self) {
        let _bytes = self.bytes;
    }
}

impl NoPrefixesBytes for Marked<'_> {
    ghost use Rattle.std.proofs.Common.{◌∙◌, sym};
    ghost use Rattle.blart_keys.specs.KeyLaws.{begins_same_length};

    ghost no_fronts = { λ x y a b h. begins_same_length x.bytes y.bytes (a ∙ sym b) h };
}

fn key_of(drops: &Cell<usize>) -> Marked<'_> {
    Marked { bytes: [7], drops }
}

/// Inserts a key whose bytes are stored. The call drops the new key. A replacement returns the
/// stored key to its caller.
fn insert_again<'a>(rt: &impl Abort, map: &mut TreeMap<Marked<'a>, u8, 2>, drops: &'a Cell<usize>) {
    for count in 0..2usize {
        assert!(rt; map.insert(key_of(drops), 1).is_ok() && drops.get() == count);
    }
    assert!(rt; map.try_insert(key_of(drops), 3).is_ok() && drops.get() == 2);
    let old = map.replace_entry(key_of(drops), 4);
    let before = drops.get();
    drop(old);
    assert!(rt; before == 2 && drops.get() == 3);
}

/// An insertion at stored bytes drops the new key. After a replacement the caller drops the old
/// one.
#[test]
fn keys_for_stored_bytes(rt: HostRuntime) {
    let drops = Cell::new(0usize);
    let mut map = TreeMap::with_prefix_len(rt.alloc());
    insert_again(&rt, &mut map, &drops);
    let removed = map.remove_prefix(&[7]);
    let before = drops.get();
    drop(map);
    assert!(rt; removed == 1 && before == 4);
}

/// A value that counts each drop.
struct Counted<'a> {
    drops: &'a Cell<usize>,
}

impl Drop for Counted<'_> {
    fn drop(self) {
        let Counted { drops } = self;
        drops.set(drops.get().wrapping_add(1));
    }
}

/// Returns a map of eight values.
fn eight<'a, const P: usize>(
    rt: &(impl Abort + AllocGlobal),
    drops: &'a Cell<usize>,
) -> TreeMap<u8, Counted<'a>, P> {
    let mut map = TreeMap::with_prefix_len(rt.alloc());
    for key in 0..8u8 {
        put(rt, &mut map, key, Counted { drops });
    }
    drops.set(0);
    map
}

/// Takes an item from each end and drops both. Then two values are dropped and six are live. The
/// walk drops the six.
fn assert_live<W: DoubleEndedIterator + Drop>(rt: &impl Abort, mut walk: W, drops: &Cell<usize>)
where
    W::Item: Drop,
    requires front { (s : W) → W.can_next s }
    requires back { (s : W) → W.can_next_back s }
{
    let (first, last) = (walk.next(), walk.next_back());
    assert!(rt; first.is_some() && last.is_some());
    drop(first);
    drop(last);
    let before = drops.get();
    drop(walk);
    assert!(rt; before == 2 && drops.get() == 8);
}

fn values_of_walks<const P: usize>(rt: &(impl Abort + AllocGlobal)) {
    let drops = Cell::new(0usize);
    assert_live(rt, eight::<P>(rt, &drops).into_iter(), &drops);
    assert_live(rt, eight::<P>(rt, &drops).into_keys(), &drops);
    assert_live(rt, eight::<P>(rt, &drops).into_values(), &drops);
}

/// Each owning walk over eight pairs returns two, and drops each of the others once when it is
/// dropped.
#[test]
fn values_of_owning_walks(rt: HostRuntime) {
    values_of_walks::<0>(&rt);
    values_of_walks::<1>(&rt);
    values_of_walks::<2>(&rt);
    values_of_walks::<8>(&rt);
    values_of_walks::<16>(&rt);
    values_of_walks::<64>(&rt);
}
