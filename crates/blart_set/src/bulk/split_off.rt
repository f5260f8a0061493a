//! Splits of a set into two.
ghost use Rattle.std.specs.Prelude.{◌≡◌, ◌≢◌, ◌++◌, ℕ, List, [], false, OnOk, IfOk, OnErr, if◌then◌else◌};
ghost use Rattle.std.specs.declared.ops.Bound.TheVariants.{Included, Excluded, Unbounded};
ghost use Rattle.blart_keys.specs.Bytes.{less};
ghost use Rattle.blart_keys.specs.Content.{between, stores};
ghost use Rattle.blart_set.specs.Elements.{elements};

use crate::set::TreeSet;
use blart_keys::AsBytes;
use std::alloc::AllocError;

impl<K: AsBytes + Drop, const PREFIX_LEN: usize> TreeSet<K, PREFIX_LEN> {
    /// Keeps the elements whose bytes are less than the query's, and returns a set of the others.
    ///
    /// It allocates for the elements that are moved before any of them is moved. If that fails, it
    /// returns an error, and the set is unchanged. If no element is moved, or all are, it does not
    /// allocate.
    ///
    /// Cost: as for [`TreeMap::split_off`].
    ///
    /// ```
    /// set.try_insert("ant")?;
    /// set.try_insert("bee")?;
    /// set.try_insert("cat")?;
    /// let rest = set.split_off(&"bee")?;
    /// assert_eq!(set.last(), Some(&"ant"));
    /// assert_eq!(rest.first(), Some(&"bee"));
    /// ```
    #[tactic(auto, unfolding(crate::specs::Elements::elements))]
    pub fn split_off<Q: AsBytes>(&mut self, query: &Q) -> Result<Self, AllocError>
        ensures kept { OnOk result ((r : List ℕ) → stores K.bytes (elements self.new) r
            ≡ (if less r (Q.bytes query.now) then stores K.bytes (elements self.old) r
            else false)) }
        ensures given { IfOk result (λ rest. (r : List ℕ) → stores K.bytes (elements rest) r
            ≡ (if less r (Q.bytes query.now) then false
            else stores K.bytes (elements self.old) r)) }
        ensures whole { IfOk result
            (λ rest. elements self.old ≡ elements self.new ++ elements rest) }
        ensures below { OnOk result (elements self.new
            ≡ between K.bytes (elements self.old) Unbounded (Excluded (Q.bytes query.now))) }
        ensures from { IfOk result (λ rest. elements rest
            ≡ between K.bytes (elements self.old) (Included (Q.bytes query.now)) Unbounded) }
        ensures err { OnErr result (self.new ≡ self.old) }
        ensures refused { OnErr result
            (between K.bytes (elements self.old) (Included (Q.bytes query.now)) Unbounded ≢ []) }
        ensures below_refused { OnErr result
            (between K.bytes (elements self.old) Unbounded (Excluded (Q.bytes query.now)) ≢ []) }
    {
        match self.map.split_off(query) {
            Ok(map) => Ok(TreeSet {
                map,
                alloc: self.alloc,
            }),
            Err(refused) => Err(refused),
        }
    }
}
