//! The errors of a line.
use std::alloc::AllocError;

/// The reason why a line has no answer of its own.
#[derive(Clone, Copy, Debug)]
pub enum Unanswered {
    /// The line is no call, or a call whose condition does not hold.
    NoCall,
    /// The program failed to allocate while it read the line or wrote its answer.
    Memory(AllocError),
}

/// `Ok` if the answer is written, or the reason why there is none.
pub type Answered = Result<(), Unanswered>;

impl From<AllocError> for Unanswered {
    fn from(refused: AllocError) -> Self {
        Unanswered::Memory(refused)
    }
}
