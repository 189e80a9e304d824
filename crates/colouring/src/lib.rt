#![tactic(auto)]

// Giving out registers: groups that were removed get them back in the opposite order.
mod filling;
mod painting;

pub use filling::fill;
pub use painting::paint;
