//! Records under numbers. In a [`Store`] and in [`Slots`] the records lie in the slots of a slab. A
//! slot that loses its record is spare, and a later record goes into it without an allocation. In
//! a [`Table`] the caller names the number of each record. [`Words`] is a list of numbers.
//!
//! A contract sees a [`Store`] as the record at each number and the number of spare slots.
#![tactic(auto)]

mod dense;
mod growth;
mod halves;
mod leaf_id;
mod slots;
mod store;
mod table;
#[cfg(test)]
mod tests;
mod visits;
mod words;

pub use leaf_id::LeafId;
pub use slots::Slots;
pub use store::Store;
pub use table::Table;
pub use visits::Visits;
pub use words::Words;
