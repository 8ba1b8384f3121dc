// Sends pseudo-random frames of every rate and prints a digest of each, to be held against another sender's.
#![tactic(auto)]

use sent::{Sent, send_frame};
use sweeping::generator::Generator;
use sweeping::turns::take_turns;

mod drawing;
mod sent;

fn show_frame(
    rt: &HostRuntime,
    number: u32,
    rate: u32,
    generator: &mut Generator,
) -> anyhow::Result<()> {
    let seed = 1 + generator.next() % 127;
    let length = drawing::length(generator, number);
    let bytes = drawing::bytes(generator, rt.alloc(), length)?;
    let Sent { symbols, digest } = send_frame(rate, seed, bytes.as_slice())?;
    println!(rt;
        "frame={number} rate={rate} seed={seed} length={length} symbols={symbols} digest={digest}"
    )?;
    Ok(())
}

fn main(rt: HostRuntime) -> anyhow::Result<()> {
    take_turns(&rt, "frames", |number, rate, generator| {
        show_frame(&rt, number, rate, generator)
    })
}
