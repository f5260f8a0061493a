//! Laws of merges of sets, each as a function whose contract is the law.
ghost use Rattle.std.specs.Prelude.{◌≡◌, ◌+◌, List, length, Contains, ◌↔◌, ◌⊎◌};
ghost use Rattle.blart_keys.specs.Merges.{IsUnion, IsSymmetricDifference, intersection, difference};
ghost use Rattle.blart_set.specs.Elements.{elements};

use crate::set::TreeSet;
use blart_keys::AsBytes;

impl<K: AsBytes, const PREFIX_LEN: usize> TreeSet<K, PREFIX_LEN> {
    /// Does nothing. Its contract is a law of [`TreeSet::union`]: the union of two sets has the
    /// elements of the difference, of the intersection and of the difference of the other set. No
    /// element is in two of these, since the lengths add up.
    ///
    /// Cost: none.
    pub fn union_law(&self, other: &Self)
        ensures parts { (U : List K) → IsUnion K.bytes (elements self.now) (elements other.now) U
            → (x : K) → Contains U x
            ↔ ((Contains (difference K.bytes (elements self.now) (elements other.now)) x
            ⊎ Contains (intersection K.bytes (elements self.now) (elements other.now)) x)
            ⊎ Contains (difference K.bytes (elements other.now) (elements self.now)) x) }
        ensures count { (U : List K) → IsUnion K.bytes (elements self.now) (elements other.now) U
            → length U ≡ length (difference K.bytes (elements self.now) (elements other.now))
            + (length (intersection K.bytes (elements self.now) (elements other.now))
            + length (difference K.bytes (elements other.now) (elements self.now))) }
    {
        self.law();
        other.law();
    }

    /// Does nothing. Its contract is a law of [`TreeSet::symmetric_difference`]: it has as many
    /// elements as the two differences together.
    ///
    /// Cost: none.
    pub fn symmetric_difference_law(&self, other: &Self)
        ensures { (U : List K)
            → IsSymmetricDifference K.bytes (elements self.now) (elements other.now) U
            → length U ≡ length (difference K.bytes (elements self.now) (elements other.now))
            + length (difference K.bytes (elements other.now) (elements self.now)) }
    {
        self.law();
        other.law();
    }
}
