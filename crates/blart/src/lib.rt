//! An ordered map from keys that are byte lists, on an adaptive radix tree, and the program over
//! it, under one name.
//!
//! [`TreeMap`] is the map and [`TreeSet`] the set. [`map`] and [`set`] have the types that go with
//! them. A key type implements [`AsBytes`]. [`run`] is the program `artmap`, over any reader and
//! writer.
#![tactic(auto)]

mod faults;

pub use blart_keys::{
    AsBytes, CloneBytes, I32Key, I64Key, NoPrefixesBytes, Number, NumberKey, OrderedBytes, U16Key,
    U32Key, U64Key, U128Key, ZKey, ZKeyError, ZQuery, ZStr,
};
pub use blart_map as map;
pub use blart_map::{InsertPrefixError, TreeMap, TryInsertError};
pub use blart_set as set;
pub use blart_set::TreeSet;
pub use faults::fault_line;
pub use line_program::{RunError, Watched, key_text_law, number_text_law, run};

/// A [`TreeMap`] whose inner nodes keep 16 bytes of their compressed prefixes.
pub type Map<K, V> = TreeMap<K, V, { map::DEFAULT_PREFIX_LEN }>;

/// Returns the [`ZStr`] of a literal, which is the text and one zero after it. The check refuses a
/// text with a zero in it.
///
/// Cost: none.
///
/// ```
/// assert_eq!(map.get(&zkey!("car")), Some(&1));
/// ```
#[macro_export]
macro_rules! zkey {
    ($text:literal) => {
        $crate::ZStr::new(concat!($text, "\0"))
    };
}

/// A [`TreeSet`] whose inner nodes keep 16 bytes of their compressed prefixes.
pub type Set<K> = TreeSet<K, { map::DEFAULT_PREFIX_LEN }>;
