// Demodulates pseudo-random symbols of every rate and prints a digest of each, to be held against another implementation's.
#![tactic(auto)]

use carriers::fault::{CarrierFault, SymbolFault};
use frame::rate::Rate;
use phy::fault::ListenFault;
use sweeping::generator::Generator;
use sweeping::turns::take_turns;
use symbols::{Heard, next_symbol};

mod drawing;
mod symbols;

fn show_refusal(rt: &HostRuntime, fault: ListenFault) -> anyhow::Result<()> {
    let number = fault.number();
    match fault {
        ListenFault::Symbol(SymbolFault::Count(carriers)) => {
            println!(rt; "fault={number} carriers={carriers}")?;
        }
        ListenFault::Symbol(SymbolFault::Carrier(CarrierFault::NotANumber { place, axis })) => {
            println!(rt; "fault={number} carrier={place} axis={axis}")?;
        }
    }
    Ok(())
}

fn show_symbol(
    rt: &HostRuntime,
    number: u32,
    mbps: u32,
    generator: &mut Generator,
) -> anyhow::Result<()> {
    let rate = Rate::try_from(mbps)?;
    print!(rt; "symbol={number} rate={mbps} ")?;
    match next_symbol(rate, generator) {
        Ok(Heard { digest, absent }) => println!(rt; "digest={digest} absent={absent}")?,
        Err(fault) => show_refusal(rt, fault)?,
    }
    Ok(())
}

fn main(rt: HostRuntime) -> anyhow::Result<()> {
    take_turns(&rt, "symbols", |number, mbps, generator| {
        show_symbol(&rt, number, mbps, generator)
    })
}
