//! A set in the order of its elements' bytes, on an adaptive radix tree.
//!
//! A [`TreeSet`] is a map of units. A contract sees it as the map's pairs, each under the number of
//! its leaf. The clauses of calls use `elements set`, the list of the elements. Their bytes
//! strictly ascend, and no element's bytes are a prefix of another's.
//!
//! The costs of calls are in the words of `docs/terms.md`.
#![tactic(auto)]

mod bulk;
mod compare;
mod extracting;
mod insertions;
mod made;
mod merge_laws;
mod merges;
mod operators;
mod relations;
mod removals;
mod reserved;
mod retaining;
mod set;
mod walks;

pub use blart_map::{DEFAULT_PREFIX_LEN, InsertPrefixError, TryInsertError, bounds_in_order};
pub use extracting::ExtractIf;
pub use merges::compares::Compares;
pub use merges::difference::Difference;
pub use merges::intersection::Intersection;
pub use merges::symmetric_difference::SymmetricDifference;
pub use merges::union::Union;
pub use reserved::Reserved;
pub use set::TreeSet;
pub use walks::{BoundedKeys, IntoIter, Iter, Prefix, Range};
