//! Texts of sets.
use crate::set::TreeSet;
use blart_keys::AsBytes;
use std::fmt::{Debug, Formatter, Result, Write};

impl<K: AsBytes + Debug, const PREFIX_LEN: usize> Debug for TreeSet<K, PREFIX_LEN> {
    /// Writes the elements between braces, in ascending order of their bytes.
    ///
    /// Cost: one pass over the set.
    ///
    /// ```
    /// assert_eq!(format!(in alloc; "{set:?}")?, "{1, 2, 3}");
    /// ```
    fn fmt<W: Write>(&self, f: &mut Formatter<W>) -> Result {
        let mut out = f.debug_set();
        for element in self.iter() {
            out.entry(element);
        }
        out.finish()
    }
}
