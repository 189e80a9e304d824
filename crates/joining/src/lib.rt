#![tactic(auto)]

// Fills a graph with the pairs of numbers that a piece of code joins: those that may not share a register.
mod filling;
mod neighbours;

pub use filling::fill;
