//! The records of inner nodes, of each kind.
pub(crate) mod children;
pub(crate) mod few;
pub(crate) mod full;
pub(crate) mod ids;
pub(crate) mod indexed;
mod inner;
mod link;
pub(crate) mod nodes;
#[cfg(test)]
mod tests;
