//! The reasons why a run has no results.
use std::alloc::{AllocError, AllocFailed};
use std::io;

/// The reason why a run has no results.
#[derive(Clone, Copy)]
pub(crate) enum Failure {
    Usage,
    Memory,
    Related,
    Differs,
    Io,
}

impl Failure {
    /// Returns the message for the reason.
    pub(crate) fn message(self) -> &'static str {
        match self {
            Failure::Usage =>
                "usage: artbench KEYS random|urls|dense|short|random8|random16|dense8|all [pairs|bulk|sets|mounts|all|keys]",
            Failure::Memory => "out of memory",
            Failure::Related => "a key that was made is related to another",
            Failure::Differs => "the maps gave different sums",
            Failure::Io => "reading or writing failed",
        }
    }
}

impl From<AllocError> for Failure {
    fn from(_: AllocError) -> Self {
        Failure::Memory
    }
}

impl<T: Drop> From<AllocFailed<T>> for Failure {
    fn from(_: AllocFailed<T>) -> Self {
        Failure::Memory
    }
}

impl From<io::Error> for Failure {
    fn from(_: io::Error) -> Self {
        Failure::Io
    }
}
