//! The arguments of the program.
use crate::failure::Failure;
use crate::workload::Kind;

/// Calls that are timed together.
#[derive(Clone, Copy, PartialEq, Eq)]
pub(crate) enum Group {
    /// Calls of a map on single pairs, and its walks.
    Pairs,
    /// Calls of a map that take or return many pairs at once.
    Bulk,
    /// Calls of a set.
    Sets,
    /// Look-ups of paths in a table of mounts.
    Mounts,
    /// No calls. The keys are written and nothing is timed.
    Keys,
}

impl Group {
    /// All groups.
    const ALL: [Group; 5] = [
        Group::Pairs,
        Group::Bulk,
        Group::Sets,
        Group::Mounts,
        Group::Keys,
    ];

    /// Returns the word for the group.
    pub(crate) fn name(self) -> &'static str {
        match self {
            Group::Pairs => "pairs",
            Group::Bulk => "bulk",
            Group::Sets => "sets",
            Group::Mounts => "mounts",
            Group::Keys => "keys",
        }
    }
}

/// The number of keys, their kind, and the group of calls. `None` means all.
#[derive(Clone, Copy)]
pub(crate) struct Wishes {
    pub(crate) keys: usize,
    pub(crate) kind: Option<Kind>,
    pub(crate) group: Option<Group>,
}

impl Wishes {
    /// Reads the arguments. The first is the program's name.
    pub(crate) fn read(args: &[String]) -> Result<Self, Failure> {
        match args {
            [_, keys, kind] => wishes_of(keys, kind, "all"),
            [_, keys, kind, rows] => wishes_of(keys, kind, rows),
            _ => Err(Failure::Usage),
        }
    }

    /// Returns whether the calls of a group are to be timed.
    pub(crate) fn asks_for(self, group: Group) -> bool {
        self.group.is_none() || self.group == Some(group)
    }
}

/// Reads the three words of the arguments.
fn wishes_of(keys: &str, kind: &str, rows: &str) -> Result<Wishes, Failure> {
    let Ok(keys) = keys.parse::<usize>() else {
        return Err(Failure::Usage);
    };
    Ok(Wishes {
        keys,
        kind: kind_of(kind)?,
        group: group_of(rows)?,
    })
}

/// Returns the kind of keys that a word names, or `None` for all.
fn kind_of(word: &str) -> Result<Option<Kind>, Failure> {
    for kind in Kind::ALL {
        if word == kind.name() {
            return Ok(Some(kind));
        }
    }
    none_for_all(word)
}

/// Returns the group of calls that a word names, or `None` for all.
fn group_of(word: &str) -> Result<Option<Group>, Failure> {
    for group in Group::ALL {
        if word == group.name() {
            return Ok(Some(group));
        }
    }
    none_for_all(word)
}

/// Returns `None` if the word is `all`, and else an error.
fn none_for_all<T>(word: &str) -> Result<Option<T>, Failure> {
    if word == "all" {
        Ok(None)
    } else {
        Err(Failure::Usage)
    }
}
