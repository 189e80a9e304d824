#![tactic(auto)]

// Sets of numbers below 512, as eight 64-bit words.
mod iterating;
mod members;
mod number_set;

pub use members::Members;
pub use number_set::NumberSet;
