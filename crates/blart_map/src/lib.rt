//! A map in the order of its keys' bytes, on an adaptive radix tree.
//!
//! A contract sees a [`TreeMap`] as the list of its pairs, each under the id of its leaf. The
//! clauses of calls speak of `pairs map`, the list without the ids. The bytes of the pairs' keys
//! strictly ascend, and no key's bytes are a prefix of another's.
//!
//! The costs of calls are in the words of `docs/terms.md`.
#![tactic(auto)]

mod bulk;
mod calls;
mod compare;
mod entries;
mod entry;
mod entry_calls;
mod get_or_insert;
mod inner;
mod insertions;
mod into_walks;
mod laws;
mod made;
mod map;
mod occupied;
mod prefix_entry;
mod prefix_insert;
mod prefix_kind;
mod prefix_occupied;
mod removals;
mod reserved;
mod retaining;
mod vacant;
mod walks;
mod writes;

pub use art_tree::{DEFAULT_PREFIX_LEN, LeafId, Visits};
pub use art_walk::{
    BelowFront, BoundedIter, Cursor, InRange, InSubtree, IntoIter, IntoKeys, IntoValues, Iter,
    Keys, Prefix, Range, SubtreeIter, Values, ValuesAlone, WithKeys,
};
pub use blart_keys::{Call, InsertPrefixError, Reply, TryInsertError};
pub use calls::{bounds_in_order, drive};
pub use entry::Entry;
pub use inner::InnerOccupiedEntry;
pub use map::TreeMap;
pub use occupied::OccupiedEntry;
pub use prefix_entry::PrefixEntry;
pub use prefix_kind::PrefixKind;
pub use prefix_occupied::PrefixOccupied;
pub use reserved::{PutBack, Reserved, Room};
pub use vacant::VacantEntry;
pub use walks::counted_walk::{CountedWalk, IterMut, ValuesMut};
pub use walks::extract_if::ExtractIf;
pub use walks::lending_walk::{LendingWalk, PrefixMut, RangeMut, SubtreeIterMut};
pub use walks::take_walk::TakeWalk;
