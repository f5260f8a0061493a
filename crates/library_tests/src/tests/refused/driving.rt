//! Calls as values. One of them is refused and the others continue.
use super::say_refused;
use blart_map::{Call, Reply, TreeMap, TryInsertError, drive};
use std::process::Abort;

type Replies = Vec<Reply<[u8; 2], usize>>;

/// Returns whether there was memory for an insertion of a new key.
fn is_put(rt: &impl Abort, reply: Option<Reply<[u8; 2], usize>>) -> bool {
    match reply {
        Some(Reply::TryInsert(Ok(None))) => true,
        Some(Reply::TryInsert(Err(TryInsertError::Memory(_)))) => false,
        _ => panic!(rt; "another reply"),
    }
}

/// Checks that the map has the keys for which the replies report a success.
fn assert_driven(rt: &(impl Abort + Print), map: &TreeMap<[u8; 2], usize, 2>, replies: Replies) {
    let mut replies = replies.into_iter();
    let first = is_put(rt, replies.next());
    let second = is_put(rt, replies.next());
    let is_there = matches!(replies.next(), Some(Reply::ContainsKey(true)));
    let is_end = replies.next().is_none();
    drop(replies);
    if !first || !second {
        say_refused(rt);
    }
    assert!(rt; is_there == second && is_end);
    assert!(rt; map.contains_key(&[1u8, 7]) == first && map.contains_key(&[2u8, 2]) == second);
}

/// Runs two insertions and a look-up.
fn drive_three(rt: &(impl Abort + AllocGlobal + Print), map: &mut TreeMap<[u8; 2], usize, 2>) {
    let Ok(calls) = vec![in rt.alloc();
        Call::TryInsert([1u8, 7], 2usize),
        Call::TryInsert([2, 2], 3),
        Call::ContainsKey([2, 2]),
    ] else {
        say_refused(rt);
        return;
    };
    match drive(map, calls) {
        Ok(replies) => assert_driven(rt, map, replies),
        Err(_) => {
            say_refused(rt);
            assert!(rt; map.is_empty());
        }
    }
}

#[test]
fn a_refused_call_is_replied_to(rt: HostRuntime) {
    let mut map = TreeMap::with_prefix_len(rt.alloc());
    drive_three(&rt, &mut map);
    drop(map);
}
