//! The codes that calls return.

/// The key was new, or the map was made.
pub(crate) const ADDED: u32 = 0;
/// The key was stored, and has the new value now.
pub(crate) const REPLACED: u32 = 1;
/// Nothing changed: the key is a proper prefix of a stored key, or a stored key is one of it.
pub(crate) const CONFLICT: u32 = 2;
/// Nothing changed: memory ran out.
pub(crate) const NO_MEMORY: u32 = 3;

/// The pair was copied out.
pub(crate) const FOUND: u32 = 0;
/// There is no such pair.
pub(crate) const NONE: u32 = 1;
/// There is such a pair, and its key is longer than the buffer for it.
pub(crate) const TOO_SMALL: u32 = 2;
