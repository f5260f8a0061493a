//! A child in one word.
ghost use Rattle.std.specs.Prelude.{◌≡◌, Some, None};

use crate::records::ids::{Child, NodeId};
use art_slots::LeafId;
use std::marker::Model;

/// A child in one word: 8 times the leaf's id, or 8 times the node's place plus 1
/// to 4 for its kind. A contract sees the child.
#[derive(Clone, Copy)]
pub(crate) struct Link {
    pub(super) word: usize,
}

impl Model for Link {
    ghost use Rattle.std.specs.Prelude.{◌%◌, ◌<◌};
    ghost use Rattle.art_kinds.specs.declared.records.ids.Child.{Child as Value_};
    ghost use Rattle.art_kinds.specs.Codes.{child_code};
    ghost use Rattle.art_kinds.specs.Words.{child_of, word_of, word-of};

    ghost Value = { Value_ };

    ghost coded = { child_code };

    ghost view = { λ l. child_of l.word };

    ghost invariant = { λ l. l.word % 8 < 5 };

    ghost inverse = { λ c. record { word = word_of c } };

    ghost inverse_ok = { λ a h. word-of a h };
}

impl Link {
    /// Returns the link to a child.
    #[inline(always)]
    pub(crate) fn of(child: Child) -> Self
        ensures { result ≡ child }
    {
        match child {
            Child::Leaf(id) => Link {
                word: id.number() * 8,
            },
            Child::Inner(id) => Link {
                word: id.number / 4 * 8 + id.number % 4 + 1,
            },
        }
    }

    /// Returns a link for a place that is not used.
    pub(crate) fn none() -> Self {
        Link { word: 0 }
    }

    /// Returns the child.
    #[inline(always)]
    pub(crate) fn child(self) -> Child
        ensures { result ≡ self }
    {
        let number = self.word / 8;
        let digit = self.word % 8;
        if digit == 0 {
            return Child::Leaf(LeafId::new(number));
        }
        Child::Inner(NodeId {
            number: number * 4 + digit - 1,
        })
    }
}

/// A child or nothing in one word: 0 for nothing, or 1 more than the word of the [`Link`] to the
/// child. A contract sees the child or nothing.
#[derive(Clone, Copy)]
pub(crate) struct OptionLink {
    pub(super) word: usize,
}

impl Model for OptionLink {
    ghost use Rattle.std.specs.Prelude.{◌-◌, ◌%◌, ◌<◌, Option};
    ghost use Rattle.std.specs.Coded.{coded_option};
    ghost use Rattle.art_kinds.specs.declared.records.ids.Child.{Child as Value_};
    ghost use Rattle.art_kinds.specs.Codes.{child_code};
    ghost use Rattle.art_kinds.specs.Words.{child_or_none, word_or_none, word-or-none};

    ghost Value = { Option Value_ };

    ghost coded = { coded_option child_code };

    ghost view = { λ l. child_or_none l.word };

    ghost invariant = { λ l. (l.word - 1) % 8 < 5 };

    ghost inverse = { λ c. record { word = word_or_none c } };

    ghost inverse_ok = { λ a h. word-or-none a h };
}

impl OptionLink {
    /// Returns the link to a child.
    #[inline(always)]
    pub(crate) fn of(child: Child) -> Self
        ensures { result ≡ Some child }
    {
        let link = Link::of(child);
        OptionLink {
            word: link.word + 1,
        }
    }

    /// Returns the link to nothing.
    pub(crate) fn none() -> Self
        ensures { result ≡ None }
    {
        OptionLink { word: 0 }
    }

    /// Returns the child, if there is one.
    #[inline(always)]
    pub(crate) fn child(self) -> Option<Child>
        ensures { result ≡ self }
    {
        if self.word == 0 {
            return None;
        }
        let link = Link {
            word: self.word - 1,
        };
        Some(link.child())
    }
}
