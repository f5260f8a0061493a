//! Comparisons of sets, their hashes and their texts.
mod debug;
mod eq;
mod hash;
mod ord;
