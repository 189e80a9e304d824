#![tactic(auto)]

// A store of pairs: a table of words that are lent to it, in which a pair's word is found by hashing.
pub mod edge_table;
pub mod handing;
mod probing;
pub mod reopening;
pub mod store;
