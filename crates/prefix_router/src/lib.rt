//! Two tables of mounts: paths with targets.
//!
//! A path is bytes, and no byte has a meaning of its own.
//!
//! - In [`Mounts`] no path is a prefix of another. At most one mounted path is a prefix of a path,
//!   so there is nothing to choose when a path is resolved.
//! - In [`Routes`] paths nest. A path is resolved to the longest mounted path that is a prefix of
//!   it.
//!
//! The costs of calls are in the words of `docs/terms.md`.
#![tactic(auto)]

mod mounts;
mod resolve_all;
mod routes;
mod tables;
mod under;

pub use blart_map::{InsertPrefixError, Prefix, TryInsertError, Visits};
pub use mounts::Mounts;
pub use resolve_all::ResolveAll;
pub use routes::Routes;
pub use under::Under;
