//! The errors that end a run.
use thiserror::Error;

/// The error of a run that ended before the end of its input.
#[derive(Debug, Clone, Copy, PartialEq, Eq, Error)]
pub enum RunError {
    /// The reader returned an error.
    #[error("read failed")]
    Read,
    /// The writer returned an error, or took no byte of a piece that was not empty.
    #[error("write failed")]
    Write,
    /// A line failed to grow.
    #[error("out of memory")]
    Memory,
}
