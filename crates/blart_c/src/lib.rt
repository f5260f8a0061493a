//! The map for C: a static library of functions over a `TreeMap` of byte strings and 64-bit
//! numbers.
//!
//! C holds a map by a handle, a pointer that [`art_new`](making::art_new) writes and
//! [`art_free`](making::art_free) takes. A byte string is a pointer and a length. Each contract
//! says by `held map`, the pairs in the order of their keys' bytes, what the map holds before and
//! after the call. What C passes is on trust: no check sees that a caller meets a contract.
#![tactic(auto)]

mod box_parts;
mod calls;
mod codes;
mod copying;
mod handle;
mod making;
mod neighbours;
mod pages;
mod paging;
mod tree;

pub use calls::{
    art_clear, art_get, art_insert, art_len, art_overwrite, art_prefix_get, art_remove,
    art_remove_prefix,
};
pub use handle::{ArtMap, Opaque};
pub use making::{art_free, art_new};
pub use neighbours::{art_first, art_last, art_next, art_prev};
pub use pages::{art_page, art_prefix_page, art_range_page};
