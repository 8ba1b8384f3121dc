// What the sweeps share: the numbers that they draw, the digest that they print, and their turns through the rates.
#![tactic(auto)]

pub mod digest;
pub mod generator;
pub mod soft;
pub mod turns;
