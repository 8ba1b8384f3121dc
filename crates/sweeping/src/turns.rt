// The turns of a sweep, which go round the rates.
use crate::generator::Generator;
use anyhow::anyhow;
use std::env;

const DEFAULT_COUNT: u32 = 40;

const RATES: [u32; 8] = [6, 9, 12, 18, 24, 36, 48, 54];

// How many turns to take: the first word after the program's name.
fn count(rt: &HostRuntime, items: &str) -> anyhow::Result<u32> {
    match env::args(rt)?.nth(1) {
        Some(word) => word
            .parse::<u32>()
            .map_err(|_| anyhow!("the count of {items} is not a whole number")),
        None => Ok(DEFAULT_COUNT),
    }
}

// Takes the turns one after the other: each has its number, its rate in Mbit/s and the generator.
pub fn take_turns<F>(rt: &HostRuntime, items: &str, mut turn: F) -> anyhow::Result<()>
where
    F: FnMut(u32, u32, &mut Generator) -> anyhow::Result<()>,
    requires { F.IsAlwaysCallable turn }
{
    let mut generator = Generator::new();
    for number in 0..count(rt, items)? {
        turn(number, RATES[number as usize % 8], &mut generator)?;
    }
    Ok(())
}
