#![tactic(auto)]

pub mod demodulator;
pub mod fault;
pub mod sending;
mod symbol;
pub mod telling;
