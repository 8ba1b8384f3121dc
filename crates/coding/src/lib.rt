#![tactic(auto)]

pub mod coder;
pub mod depuncturer;
pub mod encoder;
pub mod interleaver;
pub mod puncturing;
