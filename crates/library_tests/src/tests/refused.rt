//! Tests of what remains after a request for memory was refused.
//!
//! Each test passes if any one of its requests is refused, and if all requests from any one on are
//! refused. It writes the line `refused` for each call that was refused. `tools/refusals` refuses
//! the first request of each test alone, then the second, and so on, until the test has no such
//! request. Then it refuses all requests from the first on, all from the second on, and so on.
//!
//! When a test makes a refused call again, or allocates for itself, that code is between the
//! remarks `Refusals pause.` and `Refusals resume.`. The tool replaces the remarks by calls, for
//! the runs in which all requests from one on are refused. The other code of a test is right
//! whatever is refused.

mod closures;
mod collected;
mod cursors;
mod driving;
mod dropped;
mod fronts;
mod keys;
mod reserved;
mod router;
mod routes;
mod runs;
mod trees;

/// Keys in no order. Two of them have the same first byte.
const KEYS: [[u8; 2]; 5] = [[2, 1], [3, 3], [1, 7], [2, 2], [9, 9]];

/// Returns the key of a place.
fn key_of(place: usize) -> [u8; 2] {
    KEYS[place % 5]
}

/// Writes that a call was refused.
fn say_refused(rt: &impl Print) {
    let _ = println!(rt; "refused");
}
