//! The pairs that a closure keeps.
ghost use Rattle.std.specs.Map.Calls.{CallableOnEachPair, CalledAtPair, TakesPair};
ghost use Rattle.blart_keys.specs.Walks.{Retains, AsksPair};
ghost use Rattle.art_walk.specs.Asking.{RetainsBy};
ghost use Rattle.blart_map.specs.Content.{pairs};

use crate::map::TreeMap;
use blart_keys::AsBytes;

impl<K: AsBytes + Drop, V: Drop, const PREFIX_LEN: usize> TreeMap<K, V, PREFIX_LEN> {
    /// Retains the pairs for which the closure returns `true`, each with the value that the closure
    /// left.
    ///
    /// The closure is called once for each pair, in ascending order of the keys' bytes.
    ///
    /// Cost: one visit for each pair, and one descent for each removed pair. Does not allocate.
    ///
    /// ```
    /// map.try_insert("cat", 1)?;
    /// map.try_insert("dog", 2)?;
    /// map.retain(|_, value| {
    ///     *value += 1;
    ///     *value > 2
    /// });
    /// assert_eq!(map.get(&"cat"), None);
    /// assert_eq!(map.get(&"dog"), Some(&3));
    /// ```
    #[tactic(auto, unfolding(crate::specs::Content::pairs))]
    pub fn retain<F: FnMut(&K, &mut V) -> bool + Drop>(&mut self, mut f: F)
        requires { CallableOnEachPair (CalledAtPair F.FnMut) (TakesPair F.FnMut) f
            (pairs self.old) }
        ensures { Retains (AsksPair F.FnMut) (pairs self.old) f (pairs self.new) }
    {
        self.retain_by(&mut f)
    }

    /// Retains pairs like [`TreeMap::retain`], with a mutable reference to a closure. So the
    /// contract also says in which state the closure ends: the state in which the last of these
    /// calls left it.
    ///
    /// The closure is called once for each pair, in ascending order of the keys' bytes.
    ///
    /// Cost: one visit for each pair, and one descent for each removed pair. Does not allocate.
    ///
    /// ```
    /// map.try_insert("cat", 1)?;
    /// map.try_insert("dog", 2)?;
    /// let mut last = 0;
    /// map.retain_by(&mut |_, value| {
    ///     last = *value;
    ///     *value > 1
    /// });
    /// assert_eq!(last, 2);
    /// assert_eq!(map.first_key_value(), Some((&"dog", &2)));
    /// ```
    #[tactic(auto, unfolding(crate::specs::Content::pairs))]
    pub fn retain_by<F: FnMut(&K, &mut V) -> bool>(&mut self, f: &mut F)
        requires { CallableOnEachPair (CalledAtPair F.FnMut) (TakesPair F.FnMut) f.old
            (pairs self.old) }
        ensures { RetainsBy (AsksPair F.FnMut) (pairs self.old) f.old (pairs self.new) f.new }
    {
        art_walk::retain_by(&mut self.tree, f)
    }
}
