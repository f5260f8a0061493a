//! The elements of another set.
ghost use Rattle.std.specs.Prelude.{◌≡◌, ◌≢◌, ◌++◌, ◌||◌, ℕ, List, [], OnOk, OnErr};
ghost use Rattle.blart_keys.specs.Bulk.{IsAppended};
ghost use Rattle.blart_keys.specs.Content.{stores, IsContent};
ghost use Rattle.blart_set.specs.Elements.{elements};

use crate::set::TreeSet;
use blart_keys::NoPrefixesBytes;
use std::alloc::AllocError;

impl<K: NoPrefixesBytes + Drop, const PREFIX_LEN: usize> TreeSet<K, PREFIX_LEN> {
    /// Moves all elements of the other set into this one, and leaves the other set empty. If both
    /// sets have the same bytes, the other's element is stored. If all elements of the other set
    /// are greater than all of this one, as after a [`TreeSet::split_off`], the elements are those
    /// of this set and then those of the other.
    ///
    /// The elements of the set that has fewer are moved. If that is this set, the two sets are
    /// exchanged first. It allocates for as many elements before any of them is moved. If that
    /// fails, it returns an error, and both sets are unchanged. If either set is empty, it does not
    /// allocate.
    ///
    /// Cost: allocates for the elements of the set that has fewer, and then makes one insertion for
    /// each of them. The records of that set are freed whole.
    ///
    /// ```
    /// // left is {1, 2, 3}, right is {3, 4, 5}
    /// left.append(&mut right)?;
    /// assert_eq!(left.len(), 5);
    /// assert!(right.is_empty());
    /// ```
    #[tactic(auto, unfolding(crate::specs::Elements::elements))]
    pub fn append(&mut self, other: &mut Self) -> Result<(), AllocError>
        ensures stored { OnOk result ((q : List ℕ) → stores K.bytes (elements self.new) q
            ≡ (stores K.bytes (elements other.old) q || stores K.bytes (elements self.old) q)) }
        ensures appended { OnOk result
            (IsAppended K.bytes (elements self.old) (elements other.old) (elements self.new)) }
        ensures joined { OnOk result ((S : List K) → IsContent K.bytes S
            → S ≡ elements self.old ++ elements other.old → elements self.new ≡ S) }
        ensures emptied { OnOk result (elements other.new ≡ []) }
        ensures err { OnErr result (self.new ≡ self.old) }
        ensures other_err { OnErr result (other.new ≡ other.old) }
        ensures refused { OnErr result (elements self.old ≢ []) }
        ensures other_refused { OnErr result (elements other.old ≢ []) }
    {
        self.map.append(&mut other.map)
    }
}
