#![tactic(auto)]

// Which numbers are live where in a piece of code, by paths.
mod flow;
mod liveness;
mod renew;
mod sweep;
mod way;

pub use liveness::Liveness;
pub use way::{Undefined, find_undefined, find_way, first_undefined};
