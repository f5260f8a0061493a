//! The inner nodes of an adaptive radix tree, in records of four kinds, with room for 4, 16, 48 and
//! 256 children.
//!
//! A contract sees [`Nodes`] as the node under each number, and the spare records of each kind. A
//! node moves to the next larger kind at its 5th, 17th and 49th child. A removal moves it to the
//! smallest kind that has a place for each of its children, unless it fails to allocate.
#![tactic(auto)]

mod records;

pub use records::ids::{Child, Edge, End, Kind, NodeId};
pub use records::nodes::{NodeRef, Nodes};
