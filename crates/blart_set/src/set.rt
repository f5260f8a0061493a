//! The set, and its calls that read.
ghost use Rattle.std.specs.Prelude.{◌≡◌, ◌==◌, ◌-◌, [], true, length, slice_get, option_copied, IfSome};
ghost use Rattle.blart_keys.specs.Bytes.{begins};
ghost use Rattle.blart_keys.specs.Content.{at, conflict, front_of, stores, IsContent};
ghost use Rattle.blart_keys.specs.Stored.{CanCount};
ghost use Rattle.blart_set.specs.Elements.{elements};

use blart_keys::AsBytes;
use blart_map::{DEFAULT_PREFIX_LEN, TreeMap};
use std::alloc::Global;
use std::marker::Model;

/// Elements in the order of their bytes. No element's bytes are a prefix of another's.
///
/// A byte list is less than another if its byte is less at the first place where they differ, or if
/// it is a proper prefix of the other. Two elements are related if the bytes of one are a prefix of
/// the other's. An element conflicts with a set if the set has a related element with other bytes.
///
/// ```
/// assert!(set.try_insert("cat")?);
/// assert!(set.try_insert("car")?);
/// assert!(!set.try_insert("cat")?);
/// assert!(set.try_insert("ca").is_err());
/// assert_eq!(set.first(), Some(&"car"));
/// ```
#[derive(Drop)]
pub struct TreeSet<K: AsBytes, const PREFIX_LEN: usize> {
    pub(crate) map: TreeMap<K, (), PREFIX_LEN>,
    pub(crate) alloc: Global,
}

impl<K: AsBytes, const PREFIX_LEN: usize> Model for TreeSet<K, PREFIX_LEN> {
    ghost use Rattle.std.specs.Prelude.{List};
    ghost use Rattle.blart_map.specs.Content.{Numbered};

    ghost Value = { List (Numbered K (Unit {0})) };

    ghost view = { λ s. s.map };
}

impl<K: AsBytes> TreeSet<K, DEFAULT_PREFIX_LEN> {
    /// Returns a set with no elements. An inner node keeps 16 bytes of its compressed prefix. Does
    /// not allocate.
    ///
    /// Cost: none.
    pub fn new(alloc: Global) -> Self
        ensures { elements result ≡ [] }
    {
        Self::with_prefix_len(alloc)
    }
}

#[tactic(auto, unfolding(crate::specs::Elements::elements))]
impl<K: AsBytes, const PREFIX_LEN: usize> TreeSet<K, PREFIX_LEN> {
    /// Returns a set with no elements. An inner node keeps `PREFIX_LEN` bytes of its compressed
    /// prefix. Does not allocate.
    ///
    /// Cost: none.
    pub fn with_prefix_len(alloc: Global) -> Self
        ensures { elements result ≡ [] }
    {
        TreeSet {
            map: TreeMap::with_prefix_len(alloc),
            alloc,
        }
    }

    /// Does nothing. Its contract says what holds of every set: the elements ascend by their bytes,
    /// no element's bytes are a prefix of another's, and the number of elements fits a `usize`.
    ///
    /// Cost: none.
    pub fn law(&self)
        ensures content { IsContent K.bytes (elements self.now) }
        ensures fits { CanCount (elements self.now) }
    {
        self.map.law();
    }

    /// Returns the number of elements.
    ///
    /// Cost: reads a count.
    pub fn len(&self) -> usize
        ensures { result ≡ length (elements self.now) }
    {
        self.map.len()
    }

    /// Returns `true` if there are no elements.
    ///
    /// Cost: reads a count.
    pub fn is_empty(&self) -> bool
        ensures { result ≡ (length (elements self.now) == 0) }
    {
        self.map.is_empty()
    }

    /// Returns `true` if some element has the query's bytes.
    ///
    /// Cost: a look-up.
    pub fn contains<Q: AsBytes>(&self, query: &Q) -> bool
        ensures { result ≡ stores K.bytes (elements self.now) (Q.bytes query.now) }
    {
        self.map.contains_key(query)
    }

    /// Returns the element with the query's bytes, or `None` if there is no such element.
    ///
    /// Cost: a look-up.
    ///
    /// ```
    /// set.try_insert("cat")?;
    /// assert_eq!(set.get(&b"cat"), Some(&"cat"));
    /// assert_eq!(set.get(&"cats"), None);
    /// ```
    pub fn get<Q: AsBytes>(&self, query: &Q) -> Option<&K>
        ensures value { option_copied result
            ≡ at K.bytes (elements self.now) (Q.bytes query.now) }
        ensures found { IfSome result (λ element. K.bytes element.now ≡ Q.bytes query.now) }
    {
        match self.map.get_key_value(query) {
            Some(pair) => Some(pair.0),
            None => None,
        }
    }

    /// Returns the element whose bytes are a prefix of the query's, or `None` if there is no such
    /// element. There is at most one.
    ///
    /// Cost: a look-up.
    ///
    /// ```
    /// set.try_insert("/static/")?;
    /// assert_eq!(set.prefix_get(&"/static/logo.png"), Some(&"/static/"));
    /// assert_eq!(set.prefix_get(&"/stat"), None);
    /// ```
    pub fn prefix_get<Q: AsBytes>(&self, query: &Q) -> Option<&K>
        ensures value { option_copied result
            ≡ front_of K.bytes (elements self.now) (Q.bytes query.now) }
        ensures found { IfSome result
            (λ element. begins (K.bytes element.now) (Q.bytes query.now) ≡ true) }
    {
        match self.map.prefix_get_key_value(query) {
            Some(pair) => Some(pair.0),
            None => None,
        }
    }

    /// Returns `true` if an element with the query's bytes would conflict: some element is related
    /// to them and has other bytes.
    ///
    /// Cost: one descent.
    pub fn conflicts<Q: AsBytes>(&self, query: &Q) -> bool
        ensures { result ≡ conflict K.bytes (elements self.now) (Q.bytes query.now) }
    {
        self.map.conflicts(query)
    }

    /// Returns the element whose bytes are least, or `None` if there are no elements.
    ///
    /// Cost: one visit.
    pub fn first(&self) -> Option<&K>
        ensures { option_copied result ≡ slice_get (elements self.now) 0 }
    {
        match self.map.first_key_value() {
            Some(pair) => Some(pair.0),
            None => None,
        }
    }

    /// Returns the element whose bytes are greatest, or `None` if there are no elements.
    ///
    /// Cost: one visit.
    pub fn last(&self) -> Option<&K>
        ensures { option_copied result
            ≡ slice_get (elements self.now) (length (elements self.now) - 1) }
    {
        match self.map.last_key_value() {
            Some(pair) => Some(pair.0),
            None => None,
        }
    }
}
