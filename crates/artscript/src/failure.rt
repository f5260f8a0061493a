//! The reasons why the program stops.
use script_words::{Text, Unanswered};

/// The reason why the program ended before it wrote its results.
#[derive(Drop)]
pub(crate) enum Failure {
    /// Standard input could not be read.
    Read,
    /// Standard output could not be written.
    Write,
    /// The program ran out of memory.
    Memory,
    /// Two prefix lengths led to different answers. The text tells for which line.
    Differs(Text),
}

impl From<Unanswered> for Failure {
    fn from(_: Unanswered) -> Self {
        Failure::Memory
    }
}

impl Failure {
    /// Returns the message for the reason.
    pub(crate) fn text(&self) -> &[u8] {
        match self {
            Failure::Read => b"read failed",
            Failure::Write => b"write failed",
            Failure::Memory => b"out of memory",
            Failure::Differs(text) => text.as_slice(),
        }
    }
}
