#![tactic(auto)]

// The two classes of values, each with registers of its own.
pub mod class;

pub use class::Class;
