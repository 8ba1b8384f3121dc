// What is heard of a symbol.
ghost use Rattle.std.specs.Prelude.{◌≤◌, length};

use crate::drawing::Symbol;
use carriers::soft::SoftBit;
use frame::rate::Rate;
use phy::demodulator::demodulate;
use phy::fault::ListenFault;
use sweeping::digest::Digest;
use sweeping::generator::Generator;
use sweeping::soft::code;

// A digest of what was heard, in the coder's order, and how much of it was absent.
#[derive(Clone, Copy)]
pub struct Heard {
    pub digest: u32,
    pub absent: usize,
}

fn digest_of(pairs: &[(SoftBit, SoftBit)]) -> u32 {
    let mut digest = Digest::new();
    for (a, b) in pairs {
        digest.add(code(*a));
        digest.add(code(*b));
    }
    digest.value()
}

fn absent_in(pairs: &[(SoftBit, SoftBit)]) -> usize
    requires { length pairs.now ≤ 216 }
{
    pairs
        .iter()
        .map(|(a, b)| usize::from(*a == SoftBit::Absent) + usize::from(*b == SoftBit::Absent))
        .sum()
}

pub fn next_symbol(rate: Rate, generator: &mut Generator) -> Result<Heard, ListenFault> {
    let symbol = Symbol::draw(generator);
    let mut pairs = [(SoftBit::Absent, SoftBit::Absent); 216];
    demodulate(rate, symbol.carriers(), &mut pairs)?;
    let heard = &pairs[0..rate.n_dbps()];
    Ok(Heard {
        digest: digest_of(heard),
        absent: absent_in(heard),
    })
}
