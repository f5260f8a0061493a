//! Tests that are no scripts: calls that no line of a script makes, the examples of the documents,
//! runs of the program over readers and writers that fail, and refused requests for memory.
#![tactic(auto)]

#[cfg(test)]
mod tests;
