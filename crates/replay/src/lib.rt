#![tactic(auto)]

// Whole runs of calls over a graph.
mod calls;
mod running;

pub use calls::{Answer, Call, Granted, Replayed};
pub use running::replay;
pub use session::{Merge, Refusal};
