//! The lines of a script that call a map. The calls of entries are in `entries`.
//!
//! [`Maps`] holds the two maps of a part of a script.
mod bulk;
mod calls;
mod comparisons;
mod drives;
mod inserts;
mod lending;
pub(crate) mod lent;
mod look_ups;
mod owning;
mod picking;
mod within;

pub use calls::Maps;
