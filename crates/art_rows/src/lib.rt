//! The leaves of an adaptive radix tree, in numbered cells. A leaf stays in its cell, and the
//! number of the cell is its id. Rows of up to 64 ids have them in the order of the keys.
//!
//! A contract sees [`Leaves`] as the list of its pairs in order, each under its id, with the rows
//! of the ids and the spare rows. A step from leaf to leaf reads only rows, so a walk does not wait
//! for one leaf to find the next.
#![tactic(auto)]

mod chain;
mod following;
mod leaves;
mod row;
mod rows;
mod run;
#[cfg(test)]
mod tests;

pub use following::Following;
pub use leaves::Leaves;
pub use row::Position;
pub use run::Run;
