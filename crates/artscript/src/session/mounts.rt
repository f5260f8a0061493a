//! The table of mounts of a part of a script, and the calls of the table.
use blart_map::Visits;
use prefix_router::Mounts;
use script_words::{Answered, Shown, Text, Unanswered, Words, named, show_items, show_walk};
use std::alloc::{AllocError, Global};

/// A call of the table.
#[derive(Clone, Copy)]
enum MountName {
    Len,
    Mount,
    MountOver,
    Unmount,
    Resolve,
    ResolveCounted,
    Under,
}

/// The word for each call.
const NAMES: [(&str, MountName); 7] = [
    ("len", MountName::Len),
    ("mount", MountName::Mount),
    ("mount_over", MountName::MountOver),
    ("unmount", MountName::Unmount),
    ("resolve", MountName::Resolve),
    ("resolve_counted", MountName::ResolveCounted),
    ("under", MountName::Under),
];

/// A table of mounts.
#[derive(Drop)]
pub(crate) struct Table {
    mounts: Mounts<u64>,
}

impl Table {
    /// Returns a table with no mounts.
    pub(crate) fn new(alloc: Global) -> Self {
        Table {
            mounts: Mounts::new(alloc),
        }
    }

    /// Makes the call that the words name, and appends its answer.
    pub(crate) fn call(&mut self, mut words: Words<'_>, text: &mut Text) -> Answered {
        let Some(name) = named(&NAMES, words.word()?) else {
            return Err(Unanswered::NoCall);
        };
        match name {
            MountName::Len => self.tell(words, text),
            MountName::Mount | MountName::MountOver => self.place(name, words, text),
            MountName::Under => self.walk(words, text),
            _ => self.find(name, words, text),
        }
    }

    /// Makes the call that returns the number of mounts.
    fn tell(&self, words: Words<'_>, text: &mut Text) -> Answered {
        words.end()?;
        self.mounts.len().show(text);
        Ok(())
    }

    /// Makes a call that places a mount.
    fn place(&mut self, name: MountName, mut words: Words<'_>, text: &mut Text) -> Answered {
        let (path, target) = words.last_pair()?;
        match name {
            MountName::Mount => self.mounts.mount(path, target).show(text),
            _ => self.mounts.mount_over(path, target).show(text),
        }
        Ok(())
    }

    /// Makes a call that searches for a path.
    fn find(&mut self, name: MountName, mut words: Words<'_>, text: &mut Text) -> Answered {
        let path = words.last_bytes()?;
        match name {
            MountName::Unmount => self.mounts.unmount(&path).show(text),
            MountName::Resolve => self.mounts.resolve(&path).show(text),
            _ => self
                .mounts
                .resolve_counted(&path, &mut Visits::new())
                .show(text),
        }
        drop(path);
        Ok(())
    }

    /// Makes the call that walks over the mounts whose paths start with the given bytes.
    fn walk(&self, mut words: Words<'_>, text: &mut Text) -> Answered {
        let front = words.bytes()?;
        match words.last_moves() {
            Ok(letters) => show_walk(self.mounts.under(&front), letters, text),
            Err(why) => text.stop(why),
        }
        drop(front);
        Ok(())
    }
}
