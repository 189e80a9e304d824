#![tactic(auto)]

pub mod lines;

pub use lines::{accepted, refused};
