//! Walks over a tree, from both ends.
//!
//! A [`Cursor`] holds the first and the last leaf that are left. A contract sees a walk as the list
//! of the pairs that are left, in byte order of the keys.
//!
//! The costs of calls are in the words of `docs/terms.md`.
#![tactic(auto)]

mod bounded_iter;
mod compare;
mod cursor;
mod each;
mod extracting;
mod into_iter;
mod iter;
mod openings;
mod retaining;
mod seeks;

pub use bounded_iter::{BoundedIter, Prefix, Range, SubtreeIter};
pub use compare::{cmp, eq, hash, partial_cmp};
pub use cursor::Cursor;
pub use each::{write_pairs, write_values};
pub use extracting::{extract_first, extract_last};
pub use into_iter::{IntoIter, IntoKeys, IntoValues};
pub use iter::{Iter, Keys, Values};
pub use openings::{BelowFront, InRange, InSubtree, ValuesAlone, WithKeys};
pub use retaining::retain_by;
