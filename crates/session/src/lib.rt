#![tactic(auto)]

// Coalescing sessions over any graph: a session merges and removes vertices until the rest can be given registers.
mod bank;
mod session;
mod start;

pub use bank::{BadBank, Bank};
pub use kept::{Merge, Refusal};
pub use session::Session;
