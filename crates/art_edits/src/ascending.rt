//! A list of pairs in the order of their keys' bytes, filled at its end.
ghost use Rattle.std.specs.Prelude.{◌≡◌, ◌+◌, ◌<◌, ◌≤◌, [], length, Option, Some, true, false, IfSome};
ghost use Rattle.std.specs.List.Sorted.{IsSortedByKey};
ghost use Rattle.blart_keys.specs.Bulk.{PutsAll};
ghost use Rattle.blart_keys.specs.Bytes.{bytes_cmp, related};
ghost use Rattle.blart_keys.specs.Content.{at, IsContent, IsPut};
ghost use Rattle.blart_keys.specs.Steps.{bytes};
ghost use Rattle.blart_keys.specs.Stored.{kept_pair};
ghost use Rattle.art_tree.specs.PairList.{IsLastKey};
ghost use Rattle.art_edits.specs.Bulk.{NoneGreater};

use art_tree::Pairs;
use blart_keys::NoPrefixesBytes;

/// Puts pairs whose keys' bytes do not descend into an empty list that has room for them. If pairs
/// have the same bytes, the first key is kept, with the last value. Does not allocate.
pub fn put_ascending<K: NoPrefixesBytes + Drop, V: Drop>(
    pairs: &mut Pairs<K, V>,
    items: Vec<(K, V)>,
)
    requires none { pairs.old.pairs ≡ [] }
    requires sorted { IsSortedByKey (bytes K.bytes) bytes_cmp items.items }
    requires room { length items.items ≤ pairs.old.end_room }
    ensures put { PutsAll (bytes K.bytes) kept_pair [] items.items pairs.new.pairs }
    ensures content { IsContent (bytes K.bytes) pairs.new.pairs }
{
    for item in items {
        put_last(pairs, item.0, item.1);
    }
}

/// Puts a pair at the end of a list. If its bytes are those of the last key, the value of the last
/// pair is replaced. If not, they must be greater than those of all keys, and the pair is added. It
/// uses the room of at most one pair.
fn put_last<K: NoPrefixesBytes + Drop, V: Drop>(pairs: &mut Pairs<K, V>, key: K, value: V)
    requires content { IsContent (bytes K.bytes) pairs.old.pairs }
    requires order { NoneGreater (bytes K.bytes) pairs.old.pairs (K.bytes key) }
    requires room { 0 < pairs.old.end_room }
    ensures put { IsPut (bytes K.bytes) pairs.old.pairs
        (kept_pair (at (bytes K.bytes) pairs.old.pairs (K.bytes key)) (key, value))
        pairs.new.pairs }
    ensures room { pairs.old.end_room ≤ pairs.new.end_room + 1 }
{
    if has_bytes(pairs, &key) {
        let _old = pairs.replace_last(value);
    } else {
        pairs.push(key, value);
    }
}

/// Returns `true` if the last key has the bytes of this key. If not, the two keys are not related.
fn has_bytes<K: NoPrefixesBytes, V>(pairs: &Pairs<K, V>, key: &K) -> bool
    ensures same { result ≡ true
        → (last : K) × IsLastKey pairs.now.pairs (Some last) × (K.bytes last ≡ K.bytes key.now) }
    ensures apart { result ≡ false → (last : Option K) × IsLastKey pairs.now.pairs last
        × IfSome last (λ k. related (K.bytes k) (K.bytes key.now) ≡ false) }
{
    let Some(last) = pairs.last_key() else {
        return false;
    };
    last.value_law();
    key.value_law();
    last.as_bytes() == key.as_bytes()
}
