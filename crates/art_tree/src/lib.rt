//! An adaptive radix tree over byte keys. Each leaf has an id, which names it until it is removed.
//!
//! A contract sees a [`Tree`] as the list of its pairs in byte order, each under the id of its
//! leaf, and the room for further pairs.
//!
//! The costs of calls are in the words of `docs/terms.md`.
#![tactic(auto)]

mod lists;
mod pair_list;
#[cfg(test)]
mod tests;
mod tree;
mod walk;

pub use art_rows::Position;
pub use art_slots::{LeafId, Visits};
pub use pair_list::Pairs;
pub use tree::add::Added;
pub use tree::build::Frame;
pub use tree::point::{Gap, Point};
pub use tree::{DEFAULT_PREFIX_LEN, Tree};
pub use walk::Walk;
