//! The leaves after a leaf, by rows.
ghost use Rattle.std.specs.Prelude.{◌≡◌};

use crate::run::Run;
use art_slots::LeafId;

/// The rest of the row of a leaf, and the next row, with its numbers if they were looked up.
///
/// A walk looks up the numbers of a row when it comes to the row before. So it does not wait for
/// them at the end of that row.
#[derive(Drop)]
pub struct Following<'a> {
    pub(crate) run: Run<'a>,
    pub(crate) row: Option<usize>,
    /// The first number of the next row, if it was looked up.
    pub(crate) first: Option<LeafId>,
    /// The other numbers of the next row, if the first was looked up.
    pub(crate) rest: Run<'a>,
}

impl<'a> Following<'a> {
    ghost use Rattle.art_rows.specs.Rows.{nothing_follows};

    /// Returns an empty value, for a leaf after which nothing was looked up.
    pub fn unknown() -> Self
        ensures { result ≡ nothing_follows }
    {
        Following {
            run: Run::empty(),
            row: None,
            first: None,
            rest: Run::empty(),
        }
    }
}
