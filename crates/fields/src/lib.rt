#![tactic(auto)]

pub mod fault;
pub mod limits;
pub mod parts;
pub mod place;

pub use fault::RecordFault;
pub use limits::Limits;
pub use place::Place;
