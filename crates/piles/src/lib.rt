#![tactic(auto)]

// The four views one over the other, over any graph.
pub mod looks;
pub mod pile;
