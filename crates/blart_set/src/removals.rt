//! Removals.
ghost use Rattle.std.specs.Prelude.{◌≡◌, ◌+◌, ℕ, List, [], length, is_some, option_map, IfSome, true, false, if◌then◌else◌};
ghost use Rattle.blart_keys.specs.Bytes.{begins};
ghost use Rattle.blart_keys.specs.Content.{at, stores, under, without};
ghost use Rattle.blart_keys.specs.Outside.{outside};
ghost use Rattle.blart_keys.specs.Walks.{TakesFirst, TakesLast};
ghost use Rattle.blart_set.specs.Elements.{elements, UpdatesElement};

use crate::set::TreeSet;
use blart_keys::AsBytes;

#[tactic(auto, unfolding(crate::specs::Elements::elements))]
impl<K: AsBytes + Drop, const PREFIX_LEN: usize> TreeSet<K, PREFIX_LEN> {
    /// Removes the element with the query's bytes. Returns `true` if there was one. Does not
    /// allocate.
    ///
    /// Cost: one descent.
    ///
    /// ```
    /// set.try_insert("cat")?;
    /// assert!(set.remove(&"cat"));
    /// assert!(!set.remove(&"cat"));
    /// ```
    pub fn remove<Q: AsBytes>(&mut self, query: &Q) -> bool
        ensures value { result ≡ stores K.bytes (elements self.old) (Q.bytes query.now) }
        ensures rest { elements self.new
            ≡ without K.bytes (elements self.old) (Q.bytes query.now) }
        ensures updates { UpdatesElement K.bytes (elements self.old) (elements self.new)
            (Q.bytes query.now) false }
        ensures len { length (elements self.new) + (if result then 1 else 0)
            ≡ length (elements self.old) }
    {
        self.take(query).is_some()
    }

    /// Removes the element with the query's bytes and returns it, or returns `None` if there is no
    /// such element. Does not allocate.
    ///
    /// Cost: one descent.
    pub fn take<Q: AsBytes>(&mut self, query: &Q) -> Option<K>
        ensures value { result ≡ at K.bytes (elements self.old) (Q.bytes query.now) }
        ensures rest { elements self.new
            ≡ without K.bytes (elements self.old) (Q.bytes query.now) }
        ensures updates { UpdatesElement K.bytes (elements self.old) (elements self.new)
            (Q.bytes query.now) false }
        ensures len { length (elements self.new) + (if is_some result then 1 else 0)
            ≡ length (elements self.old) }
    {
        element_of(self.map.remove_entry(query))
    }

    /// Removes the elements whose bytes begin with `prefix`, and returns how many there were. If
    /// `prefix` is empty, these are all elements. Does not allocate.
    ///
    /// Cost: a few descents, however many elements are removed, and the drop of the removed
    /// elements.
    ///
    /// ```
    /// set.try_insert("car")?;
    /// set.try_insert("cat")?;
    /// set.try_insert("dog")?;
    /// assert_eq!(set.remove_prefix(b"ca"), 2);
    /// assert_eq!(set.len(), 1);
    /// ```
    pub fn remove_prefix(&mut self, prefix: &[u8]) -> usize
        ensures gone { (q : List ℕ) → begins prefix.now q ≡ true
            → stores K.bytes (elements self.new) q ≡ false }
        ensures others { (q : List ℕ) → begins prefix.now q ≡ false
            → stores K.bytes (elements self.new) q ≡ stores K.bytes (elements self.old) q }
        ensures len { length (elements self.new) + result ≡ length (elements self.old) }
        ensures count { result ≡ length (under K.bytes (elements self.old) prefix.now) }
        ensures rest { elements self.new ≡ outside K.bytes (elements self.old) prefix.now }
    {
        self.map.remove_prefix(prefix)
    }

    /// Removes the element whose bytes are least and returns it, or returns `None` if there are no
    /// elements. It does not allocate.
    ///
    /// Cost: one descent.
    ///
    /// ```
    /// set.try_insert("dog")?;
    /// set.try_insert("cat")?;
    /// assert_eq!(set.pop_first(), Some("cat"));
    /// assert_eq!(set.pop_first(), Some("dog"));
    /// assert_eq!(set.pop_first(), None);
    /// ```
    pub fn pop_first(&mut self) -> Option<K>
        ensures updates { IfSome result (λ element. UpdatesElement K.bytes (elements self.old)
            (elements self.new) (K.bytes element) false) }
        ensures first { TakesFirst (elements self.old) result (elements self.new) }
        ensures len { length (elements self.new) + (if is_some result then 1 else 0)
            ≡ length (elements self.old) }
    {
        element_of(self.map.pop_first())
    }

    /// Removes the element whose bytes are greatest and returns it, or returns `None` if there are
    /// no elements. It does not allocate.
    ///
    /// Cost: one descent.
    pub fn pop_last(&mut self) -> Option<K>
        ensures updates { IfSome result (λ element. UpdatesElement K.bytes (elements self.old)
            (elements self.new) (K.bytes element) false) }
        ensures last { TakesLast (elements self.old) result (elements self.new) }
        ensures len { length (elements self.new) + (if is_some result then 1 else 0)
            ≡ length (elements self.old) }
    {
        element_of(self.map.pop_last())
    }

    /// Drops all elements. Does not allocate.
    ///
    /// Cost: drops each element. It keeps the memory until the set is dropped, and counts it as no
    /// room.
    pub fn clear(&mut self)
        ensures { elements self.new ≡ [] }
    {
        self.map.clear();
    }
}

/// Returns the element of a pair of the map.
pub(crate) fn element_of<K>(pair: Option<(K, ())>) -> Option<K>
    ensures { result ≡ option_map (λ pair. pair.0) pair }
{
    match pair {
        Some(pair) => Some(pair.0),
        None => None,
    }
}
