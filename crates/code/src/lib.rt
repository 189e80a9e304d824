#![tactic(auto)]

pub mod body;
pub mod kinds;
pub mod row;

pub use body::build::Refused;
pub use body::{Code, MOST_ROWS};
pub use kinds::{Kind, UnknownKind, own_map};
pub use row::{FIRST_VALUE, Row};
