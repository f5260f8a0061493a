//! Calls as values, and the order of bounds.
ghost use Rattle.std.specs.Prelude.{◌≡◌, ◌≢◌, [], OnErr};
ghost use Rattle.blart_keys.specs.Bounds.{in_order, bound_bytes};
ghost use Rattle.blart_keys.specs.Steps.{Step};
ghost use Rattle.blart_map.specs.Content.{pairs};
ghost use Rattle.blart_map.specs.Driven.{Driven};

use crate::map::TreeMap;
use blart_keys::{AsBytes, Call, Reply, is_less};
use std::alloc::AllocError;
use std::ops::Bound;

/// Returns `true` if the bounds are in order. They are not if both are bounded and the start is
/// greater than the end, or if both are excluded and equal.
///
/// Cost: compares two keys.
///
/// ```
/// assert!(bounds_in_order(Bound::Included(&3u8), Bound::Excluded(&8u8)));
/// assert!(!bounds_in_order(Bound::Excluded(&5u8), Bound::Excluded(&5u8)));
/// ```
pub fn bounds_in_order<Q: AsBytes>(start: Bound<&Q>, end: Bound<&Q>) -> bool
    ensures { result ≡ in_order (bound_bytes Q.bytes start.entry) (bound_bytes Q.bytes end.entry) }
{
    match (start, end) {
        (Bound::Unbounded, _) | (_, Bound::Unbounded) => true,
        (Bound::Excluded(low), Bound::Excluded(high)) => is_less(low.as_bytes(), high.as_bytes()),
        (Bound::Included(low) | Bound::Excluded(low), Bound::Included(high))
        | (Bound::Included(low), Bound::Excluded(high)) => {
            !is_less(high.as_bytes(), low.as_bytes())
        }
    }
}

/// Makes the calls in turn, and returns one reply for each. It continues after a call that returns
/// an error.
///
/// It allocates the memory for the replies first. If that fails, it makes no call. If there are no
/// calls, it does not allocate.
///
/// Cost: allocates for the replies, and then makes the calls.
///
/// ```
/// let calls = vec![in alloc; Call::TryInsert("ab", 1), Call::TryInsert("a", 2), Call::PopFirst]?;
/// let replies = drive(&mut map, calls)?;
/// assert!(matches!(replies[0], Reply::TryInsert(Ok(None))));
/// assert!(matches!(replies[1], Reply::TryInsert(Err(TryInsertError::Prefix(_)))));
/// assert!(matches!(replies[2], Reply::PopFirst(Some(("ab", 1)))));
/// ```
pub fn drive<K: AsBytes + Drop, V: Drop, const PREFIX_LEN: usize>(
    map: &mut TreeMap<K, V, PREFIX_LEN>,
    calls: Vec<Call<K, V>>,
) -> Result<Vec<Reply<K, V>>, AllocError>
    ensures replies { Driven K.bytes (pairs map.old) calls.items result (pairs map.new) }
    ensures err { OnErr result (map.new ≡ map.old) }
    ensures refused { OnErr result (calls.items ≢ []) }
{
    let mut replies = Vec::with_capacity(*calls.allocator(), calls.len())?;
    'calls: for call in calls {
        let reply = answer(map, call);
        replies.push_reserved(reply);
    }
    Ok(replies)
}

/// Makes one call, and returns its reply.
#[tactic(auto, unfolding(crate::specs::Content::pairs))]
fn answer<K: AsBytes + Drop, V: Drop, const PREFIX_LEN: usize>(
    map: &mut TreeMap<K, V, PREFIX_LEN>,
    call: Call<K, V>,
) -> Reply<K, V>
    ensures { Step K.bytes (pairs map.old) call result (pairs map.new) }
{
    match call {
        Call::TryInsert(key, value) => Reply::TryInsert(map.try_insert(key, value)),
        Call::ReplaceEntry(key, value) => Reply::ReplaceEntry(map.replace_entry(key, value)),
        Call::PrefixInsert(key, value) => Reply::PrefixInsert(map.prefix_insert(key, value)),
        Call::RemoveEntry(key) => Reply::RemoveEntry(map.remove_entry(&key)),
        Call::ContainsKey(key) => Reply::ContainsKey(map.contains_key(&key)),
        Call::PopFirst => Reply::PopFirst(map.pop_first()),
        Call::PopLast => Reply::PopLast(map.pop_last()),
        Call::Clear => {
            map.clear();
            Reply::Clear
        }
    }
}
