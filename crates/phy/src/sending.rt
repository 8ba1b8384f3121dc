// A sending: a frame on its way, symbol by symbol.
ghost use Rattle.std.specs.Prelude.{◌≡◌, ◌<◌};
ghost use Rattle.phy.specs.Symbols.{header_symbol};
ghost use Rattle.phy.specs.OnItsWay.{all_symbols, next_symbol, one_further, Made, Wrote};
ghost use Rattle.phy.specs.InStep.{InStep};

use crate::fault::SendFault;
use crate::symbol::write_symbol;
use carriers::carrier::Carrier;
use carriers::check::CARRIERS;
use coding::coder::State;
use frame::data::fill_data_bits;
use frame::header::Header;
use frame::rate::Rate;
use std::marker::Model;

pub mod calls;

const LAST_SEED: u32 = 127;

const MOST_BYTES: usize = 4095;

// A few plain numbers beside the lent bytes, so that what a data symbol costs does not depend on its number. A caller sees
// the frame and how many of its symbols were written.
#[derive(Drop)]
pub struct Sending<'a> {
    bytes: &'a [u8],
    header: Header,
    // what the register began with; only proofs read it
    seed: u8,
    // how many symbols there are, the header among them, and how many of them were written
    total: u16,
    written: u16,
    // the scrambler's register and the coder's state before the next data symbol
    register: u8,
    state: State,
}

impl<'a> Model for Sending<'a> {
    ghost use Rattle.phy.specs.OnItsWay.{OnItsWay};

    ghost Value = { OnItsWay };

    ghost use Rattle.phy.specs.Sends.{on_its_way, Sends};

    ghost view = { on_its_way };

    ghost invariant = { Sends };
}

// Writes the header's symbol, by the rules of rate 6.
#[tactic(auto, using(crate::proofs::Shapes::header_fills), unfolding(crate::specs::Symbols::header_symbol))]
fn write_header(header: Header, out: &mut [Carrier; CARRIERS])
    ensures { out.new ≡ header_symbol header.rate header.length }
{
    let _ = write_symbol(Rate::R6.mode(), &header.bits(), State::zeros(), out);
}

impl<'a> Sending<'a> {
    // A sending of the bytes at a rate in Mbit/s, scrambled from a seed.
    #[tactic(auto, using(frame::proofs::DataBits::symbols_few))]
    pub fn new(rate: u32, seed: u32, bytes: &'a [u8]) -> Result<Sending<'a>, SendFault>
        ensures { Made rate seed bytes.now result }
    {
        let rate = Rate::try_from(rate)?;
        if seed == 0 || seed > LAST_SEED {
            return Err(SendFault::Seed(seed));
        }
        if bytes.is_empty() || bytes.len() > MOST_BYTES {
            return Err(SendFault::Length(bytes.len()));
        }
        let header = Header {
            rate,
            length: bytes.len() as u16,
        };
        let total = header.symbol_count() + 1;
        Ok(Sending {
            bytes,
            header,
            seed: seed as u8,
            total: total as u16,
            written: 0,
            register: seed as u8,
            state: State::zeros(),
        })
    }

    // Writes the next symbol, one of the data, and returns the scrambler's register and the coder's state after it.
    fn write_data(&self, out: &mut [Carrier; CARRIERS]) -> (u8, State)
        requires past_header { 0 < self.now.written }
        requires not_over { self.now.written < all_symbols self.now }
        ensures carriers { out.new ≡ next_symbol self.now }
        ensures after { InStep (one_further self.now) result.0 result.1 }
    {
        let n_dbps = self.header.rate.n_dbps();
        let first = usize::from(self.written - 1) * n_dbps;
        // the longest symbol's length serves all, since none can be computed from a rate in a type
        let mut bits = [false; 216];
        let bits = &mut bits[..n_dbps];
        let register = fill_data_bits(self.bytes, self.register, first, bits);
        let state = write_symbol(self.header.rate.mode(), bits, self.state, out);
        (register, state)
    }

    // Writes the next symbol: the header first, then the data symbols.
    pub fn next(&mut self, out: &mut [Carrier]) -> Result<(), SendFault>
        ensures { Wrote self.old out.old result self.new out.new }
    {
        if self.written >= self.total {
            return Err(SendFault::Over);
        }
        let Some(carriers) = out.as_mut_array() else {
            return Err(SendFault::Carriers(out.len()));
        };
        if self.written == 0 {
            write_header(self.header, carriers);
        } else {
            (self.register, self.state) = self.write_data(carriers);
        }
        self.written += 1;
        Ok(())
    }
}
