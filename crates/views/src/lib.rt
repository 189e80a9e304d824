#![tactic(auto)]

// Graphs that are another graph looked at in some way. Each is a graph over any graph, so they pile up.
pub mod class;
pub mod clique;
mod flags;
pub mod keeps;
pub mod lent;
pub mod look;
pub mod merge_table;
pub mod merged;
pub mod removed;
pub mod view;
