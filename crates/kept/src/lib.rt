#![tactic(auto)]

// The seven calls of a coalescing session over its own graph, each granted and answered by its rule.
mod kept;
mod marks;
mod moves;
mod noted;
mod refusal;
mod removed;

pub use kept::Kept;
pub use moves::{Merge, Move};
pub use refusal::Refusal;
