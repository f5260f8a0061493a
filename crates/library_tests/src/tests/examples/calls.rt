//! Calls as values, and refused insertions.
use super::{Fail, Map};
use blart_map::{Call, InsertPrefixError, Reply, TreeMap, TryInsertError, drive};
use std::alloc::{AllocError, Global};
use std::process::Abort;

/// The example of `blart_keys::InsertPrefixError`.
pub(super) fn insert_prefix_error(rt: &impl Abort, map: &mut Map<'_>) -> Result<(), Fail> {
    map.try_insert("cat", 1)?;
    assert!(rt; map.try_entry("ca").err() == Some(InsertPrefixError));
    Ok(())
}

/// The example of `blart_keys::TryInsertError`.
pub(super) fn try_insert_error(rt: &impl Abort, map: &mut Map<'_>) -> Result<(), Fail> {
    map.try_insert("cat", 1)?;
    let refused = map.try_insert("ca", 2);
    assert!(rt; matches!(refused, Err(TryInsertError::Prefix(_))));
    Ok(())
}

/// The example of `blart_keys::Call`.
pub(super) fn call(rt: &impl Abort, alloc: Global) -> Result<(), AllocError> {
    let mut map = TreeMap::<&str, i32, 16>::new(alloc);
    let mut run = || -> Result<(), AllocError> {
        let calls = vec![in alloc;
            Call::ContainsKey("cat"),
            Call::TryInsert("cat", 1),
            Call::PopLast,
        ]?;
        let replies = drive(&mut map, calls)?;
        assert!(rt; matches!(replies.first(), Some(Reply::ContainsKey(false))));
        assert!(rt; replies.len() == 3);
        assert!(rt; map.is_empty());
        drop(replies);
        Ok(())
    };
    let ran = run();
    drop(map);
    ran
}
