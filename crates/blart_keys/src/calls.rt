//! The calls of a map as values, and the errors of an insertion.

use std::alloc::AllocError;
use thiserror::Error;

/// The error of a key that conflicts: it has other bytes than a stored key, and the bytes of one of
/// the two are a prefix of the other's.
///
/// ```
/// map.try_insert("cat", 1)?;
/// assert_eq!(map.try_entry("ca").err(), Some(InsertPrefixError));
/// ```
#[derive(Clone, Copy, Debug, PartialEq, Eq, Error)]
#[error("key conflicts")]
pub struct InsertPrefixError;

/// The error of an insertion. The map is unchanged.
///
/// ```
/// map.try_insert("cat", 1)?;
/// let refused = map.try_insert("ca", 2);
/// assert!(matches!(refused, Err(TryInsertError::Prefix(_))));
/// ```
#[derive(Debug, Drop, Error)]
pub enum TryInsertError {
    /// The key conflicts with a stored key.
    #[error("key conflicts")]
    Prefix(InsertPrefixError),
    /// The allocation failed.
    #[error("out of memory")]
    Memory(AllocError),
}

/// One call of a map, with its arguments.
///
/// ```
/// let calls = vec![in alloc;
///     Call::ContainsKey("cat"),
///     Call::TryInsert("cat", 1),
///     Call::PopLast,
/// ]?;
/// let replies = drive(&mut map, calls)?;
/// assert!(matches!(replies.first(), Some(Reply::ContainsKey(false))));
/// assert_eq!(replies.len(), 3);
/// assert!(map.is_empty());
/// ```
#[derive(Drop)]
pub enum Call<K, V> {
    /// Sets the value of the stored key with these bytes, or inserts the pair, unless the key
    /// conflicts. A stored key is unchanged. The reply has the old value.
    TryInsert(K, V),
    /// Replaces the pair with the same bytes, or inserts the pair, unless the key conflicts. The
    /// reply has the old pair.
    ReplaceEntry(K, V),
    /// Inserts the pair in place of all pairs whose keys are related to its key.
    PrefixInsert(K, V),
    /// Removes the pair with the bytes of this key.
    RemoveEntry(K),
    /// Asks if there is a pair with the bytes of this key.
    ContainsKey(K),
    /// Removes the first pair.
    PopFirst,
    /// Removes the last pair.
    PopLast,
    /// Removes all pairs.
    Clear,
}

/// The result of a call.
///
/// [`Call`] has an example.
#[derive(Drop)]
pub enum Reply<K, V> {
    /// The old value, if there was a pair with these bytes, or the error of the insertion.
    TryInsert(Result<Option<V>, TryInsertError>),
    /// The old pair, if there was one with these bytes, or the error of the insertion.
    ReplaceEntry(Result<Option<(K, V)>, TryInsertError>),
    /// `Ok` if the pair is stored, or an error if the allocation failed.
    PrefixInsert(Result<(), AllocError>),
    /// The removed pair, if there was one.
    RemoveEntry(Option<(K, V)>),
    /// `true` if there is a pair with these bytes.
    ContainsKey(bool),
    /// The removed first pair, if there was one.
    PopFirst(Option<(K, V)>),
    /// The removed last pair, if there was one.
    PopLast(Option<(K, V)>),
    /// The map has no pairs.
    Clear,
}
