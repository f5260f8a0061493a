//! Two sets, side by side.
ghost use Rattle.std.specs.Prelude.{◌≡◌, ◌+◌, ◌<◌, ◌⊎◌, [], ◌∷◌, drop, Some, IfSome, IfNone};
ghost use Rattle.blart_keys.specs.Bytes.{bytes_cmp};
ghost use Rattle.blart_keys.specs.Content.{Ascends};
ghost use Rattle.blart_set.specs.Merging.{Steps, Counts, HasCompared, IsBeginning, side_element, one_element, both_element, left_element};

use crate::merges::compares::Compares;
use crate::merges::peeked::Peeked;
use crate::walks::Iter;
use blart_keys::OrderedBytes;
use std::cmp::Ordering;
use std::marker::Model;

/// The least of the elements that two sets have left: an element of the left one, of the right one,
/// or the left one's if both have its bytes.
#[derive(Drop)]
pub(crate) enum Side<'a, K> {
    Left(&'a K),
    Right(&'a K),
    Both(&'a K),
}

/// The elements that two sets have left, and the number of comparisons made.
#[derive(Drop)]
pub(crate) struct Sides<'a, K: OrderedBytes, const P: usize> {
    left: Peeked<'a, K, P>,
    right: Peeked<'a, K, P>,
    compares: Compares,
}

impl<'a, K: OrderedBytes, const P: usize> Model for Sides<'a, K, P> {
    ghost use Rattle.blart_set.specs.Merge.{Merge};
    ghost use Rattle.blart_keys.specs.Content.{Ascends};

    ghost Value = { Merge K };

    ghost view = { λ s. record { left = s.left; right = s.right; compares = s.compares } };

    ghost invariant = { λ s. Ascends K.bytes s.left × Ascends K.bytes s.right };
}

impl<'a, K: OrderedBytes, const P: usize> Sides<'a, K, P> {
    /// Returns two iterators side by side, with no comparison made.
    pub(crate) fn new(left: Iter<'a, K, P>, right: Iter<'a, K, P>) -> Self
        requires left { Ascends K.bytes left }
        requires right { Ascends K.bytes right }
        ensures { IsBeginning left.entry right.entry result }
    {
        Sides {
            left: Peeked::new(left),
            right: Peeked::new(right),
            compares: Compares::new(),
        }
    }

    /// Passes the least of the elements that are left, and returns it. It makes one comparison if
    /// both sides have elements left, and none otherwise.
    pub(crate) fn step(&mut self) -> Option<Side<'a, K>>
        ensures steps { Steps K.bytes self.old result self.new }
        ensures counted { Counts self.old self.new }
        ensures compared { HasCompared self.old self.new }
    {
        let Some(x) = self.left.peek() else {
            let y = self.right.peek()?;
            self.right.advance();
            return Some(Side::Right(y));
        };
        let Some(y) = self.right.peek() else {
            self.left.advance();
            return Some(Side::Left(x));
        };
        Some(self.step_least(x, y))
    }

    /// Passes the least of the elements that are left, like [`Sides::step`]. `x` and `y` are the
    /// first elements that the sides have left. It makes one comparison.
    #[inline(always)]
    fn step_least(&mut self, x: &'a K, y: &'a K) -> Side<'a, K>
        requires left { self.old.left ≡ x.now ∷ drop 1 self.old.left }
        requires right { self.old.right ≡ y.now ∷ drop 1 self.old.right }
        ensures steps { Steps K.bytes self.old (Some result) self.new }
        ensures counted { Counts self.old self.new }
        ensures compared { self.old.compares < self.new.compares }
    {
        match compare(x, y, &mut self.compares) {
            Ordering::Less => {
                self.left.advance();
                Side::Left(x)
            }
            Ordering::Equal => {
                self.left.advance();
                self.right.advance();
                Side::Both(x)
            }
            Ordering::Greater => {
                self.right.advance();
                Side::Right(y)
            }
        }
    }

    /// Passes the least of the elements that are left, like [`Sides::step`], if both sides have
    /// elements left.
    pub(crate) fn step_both(&mut self) -> Option<Side<'a, K>>
        ensures steps { IfSome result (λ side. Steps K.bytes self.old (Some side) self.new) }
        ensures end { IfNone result ((self.old.left ≡ []) ⊎ (self.old.right ≡ [])) }
        ensures unchanged { IfNone result (self.new ≡ self.old) }
        ensures counted { Counts self.old self.new }
        ensures compared { HasCompared self.old self.new }
    {
        let (Some(x), Some(y)) = (self.left.peek(), self.right.peek()) else {
            return None;
        };
        Some(self.step_least(x, y))
    }

    /// Passes the least of the elements that are left, like [`Sides::step`], if the left side has
    /// elements left.
    pub(crate) fn step_left(&mut self) -> Option<Side<'a, K>>
        ensures steps { IfSome result (λ side. Steps K.bytes self.old (Some side) self.new) }
        ensures end { IfNone result (self.old.left ≡ []) }
        ensures unchanged { IfNone result (self.new ≡ self.old) }
        ensures counted { Counts self.old self.new }
        ensures compared { HasCompared self.old self.new }
    {
        self.left.peek()?;
        self.step()
    }
}

impl<'a, K> Side<'a, K> {
    /// Returns the element.
    pub(crate) fn element(self) -> &'a K
        ensures { result ≡ side_element self.entry }
    {
        match self {
            Side::Left(element) | Side::Right(element) | Side::Both(element) => element,
        }
    }

    /// Returns the element if only one side has its bytes.
    pub(crate) fn of_one(self) -> Option<&'a K>
        ensures { result ≡ one_element self.entry }
    {
        match self {
            Side::Left(element) | Side::Right(element) => Some(element),
            Side::Both(_) => None,
        }
    }

    /// Returns the element if both sides have its bytes.
    pub(crate) fn of_both(self) -> Option<&'a K>
        ensures { result ≡ both_element self.entry }
    {
        match self {
            Side::Both(element) => Some(element),
            Side::Left(_) | Side::Right(_) => None,
        }
    }

    /// Returns the element if only the left side has its bytes.
    pub(crate) fn of_left(self) -> Option<&'a K>
        ensures { result ≡ left_element self.entry }
    {
        match self {
            Side::Left(element) => Some(element),
            Side::Right(_) | Side::Both(_) => None,
        }
    }
}

/// Compares two elements, which is as their bytes compare, and counts it.
fn compare<K: OrderedBytes>(x: &K, y: &K, compares: &mut Compares) -> Ordering
    ensures order { result ≡ bytes_cmp (K.bytes x.now) (K.bytes y.now) }
    ensures counted { compares.new ≡ compares.old + 1 }
{
    x.value_law();
    y.value_law();
    compares.add_one();
    x.cmp(y)
}
