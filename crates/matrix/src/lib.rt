#![tactic(auto)]

// A store of pairs: a triangular matrix of bits over bytes that are lent to it.
pub mod bit_matrix;
pub mod bits;
pub mod cases;
pub mod handing;
pub mod reopening;
mod rows;
pub mod store;
