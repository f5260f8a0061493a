//! Functions over maps, sets and routers as users write them. The contract of each tells its
//! effect, except for `count_words` and `most_frequent`, which a test calls.
//!
//! They are proved from the contracts of `blart`, `blart_set` and `prefix_router` alone. Tests call
//! some of them. So all are in a crate of tests, which is proved once.
#![tactic(auto)]

#[cfg(test)]
mod counts;
#[cfg(test)]
mod entries;
#[cfg(test)]
mod extending;
#[cfg(test)]
mod lending;
#[cfg(test)]
mod moves;
#[cfg(test)]
mod nested;
#[cfg(test)]
mod owning;
#[cfg(test)]
mod parts;
#[cfg(test)]
mod picking;
#[cfg(test)]
mod prefix_entries;
#[cfg(test)]
mod queues;
#[cfg(test)]
mod reserving;
#[cfg(test)]
mod router;
#[cfg(test)]
mod routes;
#[cfg(test)]
mod sets;
#[cfg(test)]
mod settings;
#[cfg(test)]
mod sums;
#[cfg(test)]
mod tenants;
#[cfg(test)]
mod tests;
#[cfg(test)]
mod visits;
#[cfg(test)]
mod walks;
#[cfg(test)]
mod words;
