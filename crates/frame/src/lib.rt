// Bytes to the bits of a frame: rates, the header, the scrambler and the data bits.
#![tactic(auto)]

pub mod data;
pub mod header;
pub mod rate;
pub mod scrambler;
