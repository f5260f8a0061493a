//! The lines of a script that call a set.
//!
//! [`Sets`] holds the two sets of a part of a script.
mod bulk;
mod calls;
mod comparisons;
mod counting;
mod look_ups;
mod operators;
mod picking;
mod walks;

pub use calls::Sets;
