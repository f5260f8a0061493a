//! Tests of the tree and of its inner nodes, of what no map shows, and functions that are proved
//! from the tree's contracts alone.
#![tactic(auto)]

#[cfg(test)]
mod callers;
#[cfg(test)]
mod tests;
