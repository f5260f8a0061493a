//! The elements that a closure keeps.
ghost use Rattle.blart_keys.specs.Walks.{Retains};
ghost use Rattle.blart_map.specs.Beneath.{RetainsBy};
ghost use Rattle.blart_set.specs.Asking.{AsksElement, CallableOnEachElement};
ghost use Rattle.blart_set.specs.Elements.{elements};

use crate::set::TreeSet;
use blart_keys::AsBytes;
use std::ops::Bound;

#[tactic(auto, unfolding(crate::specs::Elements::elements))]
impl<K: AsBytes + Drop, const PREFIX_LEN: usize> TreeSet<K, PREFIX_LEN> {
    /// Retains the elements for which the closure returns `true`.
    ///
    /// The closure is called once for each element, in ascending order of their bytes.
    ///
    /// Cost: one visit for each element, and one descent for each removed element. Does not
    /// allocate.
    ///
    /// ```
    /// set.try_insert("cat")?;
    /// set.try_insert("dog")?;
    /// set.retain(|element| *element == "dog");
    /// assert_eq!(set.len(), 1);
    /// ```
    pub fn retain<F: FnMut(&K) -> bool + Drop>(&mut self, mut f: F)
        requires { CallableOnEachElement F.FnMut f (elements self.old) }
        ensures { Retains (AsksElement F.FnMut) (elements self.old) f (elements self.new) }
    {
        self.retain_by(&mut f)
    }

    /// Retains elements like [`TreeSet::retain`], by a mutable reference to the closure. So the
    /// contract also says in which state the closure ends: the state in which the last of these
    /// calls left it.
    ///
    /// The closure is called once for each element, in ascending order of their bytes.
    ///
    /// Cost: one visit for each element, and one descent for each removed element. Does not
    /// allocate.
    ///
    /// ```
    /// set.try_insert("cat")?;
    /// set.try_insert("dog")?;
    /// let mut was_last = false;
    /// set.retain_by(&mut |element| {
    ///     was_last = *element == "dog";
    ///     was_last
    /// });
    /// assert!(was_last);
    /// assert_eq!(set.len(), 1);
    /// ```
    pub fn retain_by<F: FnMut(&K) -> bool>(&mut self, f: &mut F)
        requires { CallableOnEachElement F.FnMut f.old (elements self.old) }
        ensures { RetainsBy (AsksElement F.FnMut) (elements self.old) f.old
            (elements self.new) f.new }
    {
        self.law();
        let mut cursor = self.cursor(Bound::<&u8>::Unbounded, Bound::Unbounded);
        'elements: while let Some(id) = self.step(&mut cursor) {
            if f(self.element(id)) {
                continue;
            }
            let _element = self.take_element(id);
        }
    }
}
