//! Comparisons, hashes and texts of maps. They are made from the maps' lists of pairs.
mod debug;
mod eq;
mod hash;
mod ord;
