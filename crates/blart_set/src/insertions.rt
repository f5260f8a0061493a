//! Insertions.
ghost use Rattle.std.specs.Prelude.{◌≡◌, ◌+◌, ℕ, List, [], true, false, not, length, is_some, Some, OnOk, IfOk, OnErr, IfErr, if◌then◌else◌};
ghost use Rattle.blart_keys.specs.Bytes.{begins};
ghost use Rattle.blart_keys.specs.Content.{at, conflict, front_of, stores, subtree, IsPut, IsOver};
ghost use Rattle.blart_keys.specs.Stored.{kept_item, overlaps};
ghost use Rattle.blart_map.specs.Content.{pairs};
ghost use Rattle.blart_keys.specs.Routed.{spared_item};
ghost use Rattle.blart_set.specs.Elements.{elements, RefusesElement, UpdatesElement, OverwritesElement};
ghost use Rattle.std.specs.Option.{is_none};
ghost use Rattle.std.specs.Result.{result_map_both};

use crate::removals::element_of;
use crate::set::TreeSet;
use blart_keys::{AsBytes, NoPrefixesBytes, TryInsertError};
use blart_map::TreeMap;
use std::alloc::AllocError;

#[tactic(auto, unfolding(crate::specs::Elements::elements))]
impl<K: AsBytes + Drop, const PREFIX_LEN: usize> TreeSet<K, PREFIX_LEN> {
    /// Inserts the element, unless an element with the same bytes is stored. Then that element is
    /// unchanged, and the one that was handed in is dropped. Returns `true` if the bytes were new.
    ///
    /// Returns the error `Prefix` exactly if the element conflicts, and `Memory` only if the bytes
    /// are new. After an error the set is unchanged.
    ///
    /// Cost: an insertion.
    ///
    /// ```
    /// assert!(set.try_insert("cat")?);
    /// assert!(!set.try_insert("cat")?);
    /// assert!(matches!(set.try_insert("cats"), Err(TryInsertError::Prefix(_))));
    /// ```
    pub fn try_insert(&mut self, element: K) -> Result<bool, TryInsertError>
        ensures new { IfOk result
            (λ new. new ≡ not (stores K.bytes (elements self.old) (K.bytes element))) }
        ensures put { OnOk result (IsPut K.bytes (elements self.old)
            (kept_item (at K.bytes (elements self.old) (K.bytes element)) element)
            (elements self.new)) }
        ensures updates { OnOk result (UpdatesElement K.bytes (elements self.old)
            (elements self.new) (K.bytes element) true) }
        ensures free { OnOk result
            (conflict K.bytes (elements self.old) (K.bytes element) ≡ false) }
        ensures len { IfOk result (λ new. length (elements self.new)
            ≡ length (elements self.old) + (if new then 1 else 0)) }
        ensures err { OnErr result (self.new ≡ self.old) }
        ensures why { IfErr result
            (RefusesElement K.bytes (elements self.old) (K.bytes element)) }
    {
        told(self.map.try_insert(element, ()))
    }

    /// Inserts the element, in place of all elements that are related to it.
    ///
    /// If there are such elements, it does not allocate. After an error the set is unchanged.
    ///
    /// Cost: one descent, and one for each related element but one. If there are none, an
    /// insertion.
    ///
    /// ```
    /// set.try_insert("car")?;
    /// set.try_insert("cat")?;
    /// set.prefix_insert("ca")?;
    /// assert_eq!(set.len(), 1);
    /// ```
    pub fn prefix_insert(&mut self, element: K) -> Result<(), AllocError>
        ensures over { OnOk result
            (IsOver K.bytes (elements self.old) element (elements self.new)) }
        ensures overwrites { OnOk result (OverwritesElement K.bytes (elements self.old)
            (elements self.new) (K.bytes element)) }
        ensures routes { OnOk result ((r : List ℕ) → front_of K.bytes (elements self.new) r
            ≡ (if begins (K.bytes element) r then Some element
            else spared_item K.bytes (K.bytes element) (front_of K.bytes (elements self.old) r))) }
        ensures err { OnErr result (self.new ≡ self.old) }
        ensures alone { OnErr result
            (subtree K.bytes (elements self.old) (K.bytes element) ≡ []) }
    {
        self.map.prefix_insert(element, ())
    }
}

#[tactic(auto, unfolding(crate::specs::Elements::elements))]
impl<K: NoPrefixesBytes + Drop, const PREFIX_LEN: usize> TreeSet<K, PREFIX_LEN> {
    /// Inserts the element, unless an element with the same bytes is stored. Then that element is
    /// unchanged, and the one that was handed in is dropped. Returns `true` if the bytes were new.
    /// Elements of this type never conflict.
    ///
    /// Returns an error only if the bytes are new. After an error the set is unchanged.
    ///
    /// Cost: an insertion.
    ///
    /// ```
    /// assert!(set.insert(U32Key::new(258))?);
    /// assert!(!set.insert(U32Key::new(258))?);
    /// ```
    pub fn insert(&mut self, element: K) -> Result<bool, AllocError>
        ensures new { IfOk result
            (λ new. new ≡ not (stores K.bytes (elements self.old) (K.bytes element))) }
        ensures put { OnOk result (IsPut K.bytes (elements self.old)
            (kept_item (at K.bytes (elements self.old) (K.bytes element)) element)
            (elements self.new)) }
        ensures updates { OnOk result (UpdatesElement K.bytes (elements self.old)
            (elements self.new) (K.bytes element) true) }
        ensures len { IfOk result (λ new. length (elements self.new)
            ≡ length (elements self.old) + (if new then 1 else 0)) }
        ensures err { OnErr result (self.new ≡ self.old) }
        ensures absent { OnErr result
            (stores K.bytes (elements self.old) (K.bytes element) ≡ false) }
    {
        told(self.map.insert(element, ()))
    }

    /// Replaces the element with the same bytes, and returns the old one, or inserts the element
    /// and returns `None`. The stored element is always the new one.
    ///
    /// Returns an error only if the bytes are new, since a stored element is replaced in place.
    /// After an error the set is unchanged.
    ///
    /// Cost: an insertion.
    ///
    /// ```
    /// assert_eq!(set.replace(2u8)?, None);
    /// assert_eq!(set.replace(2u8)?, Some(2));
    /// ```
    pub fn replace(&mut self, element: K) -> Result<Option<K>, AllocError>
        ensures old { IfOk result
            (λ old. old ≡ at K.bytes (elements self.old) (K.bytes element)) }
        ensures put { OnOk result (IsPut K.bytes (elements self.old) element (elements self.new)) }
        ensures updates { OnOk result (UpdatesElement K.bytes (elements self.old)
            (elements self.new) (K.bytes element) true) }
        ensures len { IfOk result (λ old. length (elements self.new)
            ≡ length (elements self.old) + (if is_some old then 0 else 1)) }
        ensures err { OnErr result (self.new ≡ self.old) }
        ensures absent { OnErr result
            (stores K.bytes (elements self.old) (K.bytes element) ≡ false) }
    {
        element_law(&self.map, &element);
        match self.map.replace_entry(element, ()) {
            Ok(old) => Ok(element_of(old)),
            Err(TryInsertError::Memory(refused)) => Err(refused),
            Err(TryInsertError::Prefix(_)) => unreachable!(),
        }
    }
}

/// Returns whether the bytes were new, by the result of an insertion into the map.
pub(crate) fn told<E>(answer: Result<Option<()>, E>) -> Result<bool, E>
    ensures { result ≡ result_map_both is_none (λ e. e) answer }
{
    match answer {
        Ok(old) => Ok(old.is_none()),
        Err(refused) => Err(refused),
    }
}

/// Does nothing. Its contract says that the element conflicts with no element.
pub(crate) fn element_law<K: NoPrefixesBytes + Drop, const P: usize>(
    map: &TreeMap<K, (), P>,
    element: &K,
)
    ensures { overlaps K.bytes (pairs map.now) (K.bytes element.now) ≡ false }
{
    if !map.conflicts(element) {
        return;
    }
    map.law();
    element.value_law();
    match map.prefix_get_key_value(element) {
        Some(front) => {
            front.0.value_law();
            unreachable!()
        }
        None => match map.prefix(element.as_bytes()).next() {
            Some(below) => {
                below.0.value_law();
                unreachable!()
            }
            None => unreachable!(),
        },
    }
}
