//! Insertions into a tree, of one pair or of many, and a tree cut in two.
//!
//! Except for `place_ready` and `leave_one`, the contracts say what the list of the tree's pairs is
//! then, without the ids of their leaves.
#![tactic(auto)]

mod append;
mod ascending;
mod parting;
mod placing;
mod thinning;

pub use append::move_into;
pub use ascending::put_ascending;
pub use parting::part;
pub use placing::{
    insert, insert_disjoint, insert_disjoint_reserved, insert_reserved, place_ready,
    point_of_disjoint, replace, room_for,
};
pub use thinning::leave_one;
