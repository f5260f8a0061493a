//! The calls that do not change the sets.
use crate::sets::calls::Sets;
use blart_keys::OrderedBytes;
use script_words::{Answered, SetName, Shown, Text, Unanswered, Words};

impl<K: OrderedBytes + Shown + Drop, const PREFIX_LEN: usize> Sets<K, PREFIX_LEN> {
    /// Makes the named call, which does not change the sets, and appends its answer.
    pub(crate) fn look_up(&self, name: SetName, words: Words<'_>, text: &mut Text) -> Answered {
        match name {
            SetName::Len | SetName::IsEmpty | SetName::First | SetName::Last => {
                self.tell(name, words, text)
            }
            SetName::Contains | SetName::Conflicts | SetName::Get | SetName::PrefixGet => {
                self.find(name, words, text)
            }
            SetName::Iter => self.iter(words, text),
            SetName::Prefix => self.prefix(words, text),
            SetName::IsDisjoint
            | SetName::IsSubset
            | SetName::IsSuperset
            | SetName::Union
            | SetName::Intersection
            | SetName::Difference
            | SetName::SymmetricDifference => self.call_of_both(name, words, text),
            SetName::UnionCounted
            | SetName::IntersectionCounted
            | SetName::DifferenceCounted
            | SetName::SymmetricDifferenceCounted
            | SetName::IsDisjointCounted
            | SetName::IsSubsetCounted
            | SetName::IsSupersetCounted => self.count(name, words, text),
            _ => Err(Unanswered::NoCall),
        }
    }

    /// Makes a call without arguments.
    fn tell(&self, name: SetName, words: Words<'_>, text: &mut Text) -> Answered {
        words.end()?;
        match name {
            SetName::Len => self.first.len().show(text),
            SetName::IsEmpty => self.first.is_empty().show(text),
            SetName::First => self.first.first().show(text),
            _ => self.first.last().show(text),
        }
        Ok(())
    }

    /// Makes a call that searches for the bytes.
    fn find(&self, name: SetName, mut words: Words<'_>, text: &mut Text) -> Answered {
        let query = words.last_bytes()?;
        match name {
            SetName::Contains => self.first.contains(&query).show(text),
            SetName::Conflicts => self.first.conflicts(&query).show(text),
            SetName::Get => self.first.get(&query).show(text),
            _ => self.first.prefix_get(&query).show(text),
        }
        drop(query);
        Ok(())
    }
}

impl<K: OrderedBytes + Shown + Drop, const PREFIX_LEN: usize> Sets<K, PREFIX_LEN> {
    /// Makes the named call of both sets, and appends its answer.
    pub(crate) fn call_of_both(
        &self,
        name: SetName,
        words: Words<'_>,
        text: &mut Text,
    ) -> Answered {
        match name {
            SetName::IsDisjoint
            | SetName::IsDisjointCounted
            | SetName::IsSubset
            | SetName::IsSubsetCounted
            | SetName::IsSuperset
            | SetName::IsSupersetCounted => self.relate(name, words, text),
            _ => self.merge(name, words, text),
        }
    }

    /// Makes the named test of both sets, and appends its answer.
    fn relate(&self, name: SetName, words: Words<'_>, text: &mut Text) -> Answered {
        words.end()?;
        let holds = match name {
            SetName::IsDisjoint | SetName::IsDisjointCounted => {
                self.first.is_disjoint(&self.second)
            }
            SetName::IsSubset | SetName::IsSubsetCounted => self.first.is_subset(&self.second),
            _ => self.first.is_superset(&self.second),
        };
        holds.show(text);
        Ok(())
    }
}
