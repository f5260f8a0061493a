//! Texts of maps.
use crate::map::TreeMap;
use blart_keys::AsBytes;
use std::fmt::{Debug, Formatter, Result, Write};

impl<K: AsBytes + Debug, V: Debug, const PREFIX_LEN: usize> Debug for TreeMap<K, V, PREFIX_LEN> {
    /// Writes the pairs between braces, in byte order of their keys, each as its key, a colon and
    /// its value.
    ///
    /// Cost: one pass over the map.
    ///
    /// ```
    /// assert_eq!(format!(in alloc; "{map:?}")?, "{1: 10, 2: 20}");
    /// ```
    fn fmt<W: Write>(&self, f: &mut Formatter<W>) -> Result {
        let mut out = f.debug_map();
        for (key, value) in self.iter() {
            out.entry(key, value);
        }
        out.finish()
    }
}
