// Coded bits to carriers and back: the points of a symbol, the mapper that chooses them, and what heard points say of bits.
#![tactic(auto)]

pub mod carrier;
pub mod check;
pub mod demapper;
pub mod fault;
pub mod mapper;
pub mod soft;
