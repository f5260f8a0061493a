//! Many elements at once.
mod append;
mod clone;
mod collect;
mod extend;
mod from;
mod split_off;
