//! An iterator that shows its next element.
ghost use Rattle.std.specs.Prelude.{◌≡◌, [], ◌∷◌, drop, MatchOption};

use crate::walks::Iter;
use std::iter::Iterator;
use std::marker::Model;

/// An iterator over the elements of a set, whose next element can be seen before it is taken.
#[derive(Drop)]
pub(crate) struct Peeked<'a, K, const P: usize> {
    head: Option<&'a K>,
    rest: Iter<'a, K, P>,
}

impl<'a, K, const P: usize> Model for Peeked<'a, K, P> {
    ghost use Rattle.std.specs.Prelude.{◌≡◌, List, [], IfNone};
    ghost use Rattle.std.specs.Option.{option_copied};
    ghost use Rattle.std.specs.List.{cons_option};

    ghost Value = { List K };

    ghost view = { λ it. cons_option (option_copied it.head) it.rest };

    ghost invariant = { λ it. IfNone it.head (it.rest ≡ []) };
}

impl<'a, K, const P: usize> Peeked<'a, K, P> {
    /// Returns all elements that the iterator has left.
    pub(crate) fn new(mut rest: Iter<'a, K, P>) -> Self
        ensures { result ≡ rest.entry }
    {
        let head = rest.next();
        Peeked { head, rest }
    }

    /// Returns the first element that is left.
    pub(crate) fn peek(&self) -> Option<&'a K>
        ensures { MatchOption result (self.now ≡ [])
            (λ element. self.now ≡ element.now ∷ drop 1 self.now) }
    {
        self.head
    }

    /// Passes the first element that is left.
    pub(crate) fn advance(&mut self)
        ensures { self.new ≡ drop 1 self.old }
    {
        self.head = self.rest.next();
    }
}
