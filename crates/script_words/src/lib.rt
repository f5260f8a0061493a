//! The words of a script's lines, the calls that they name, and the texts of answers.
//!
//! [`Words`] reads bytes, numbers, bounds, and keys of a [`ScriptKey`] type. [`LineCall`] is the
//! call that a line names, and [`EntryCall`] and [`PrefixCall`] are calls of entries. A [`Shown`]
//! value is written into a [`Text`], and [`show_walk`] writes what an iterator yields.
#![tactic(auto)]

mod answered;
mod compared;
mod entry_calls;
mod keys;
mod line_calls;
mod lists;
mod map_names;
mod names;
mod picks;
mod prefix_calls;
mod reading;
mod set_names;
mod tagged;
mod text;
mod turns;
mod values;
mod walks;

pub use answered::{Answered, Unanswered};
pub use compared::Compared;
pub use entry_calls::{EntryCall, EntryGroup, EntryLine, EntryName};
pub use keys::{FixedKey, ScriptKey};
pub use line_calls::LineCall;
pub use lists::items_of;
pub use map_names::MapName;
pub use names::named;
pub use picks::{BytesPick, ValuePick};
pub use prefix_calls::{PrefixCall, PrefixName};
pub use reading::Words;
pub use set_names::SetName;
pub use tagged::Tagged;
pub use text::{Shown, Text, show_debug};
pub use values::{have_one_digest, length_of, raise, raised, value_of, written};
pub use walks::{show_items, show_walk};
