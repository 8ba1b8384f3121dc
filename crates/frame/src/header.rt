// The header: what a frame says of its data, and the 24 bits of the SIGNAL symbol.
ghost use Rattle.std.specs.Prelude.{◌≡◌, map};
ghost use Rattle.std.specs.List.{range_with_len};
ghost use Rattle.frame.specs.Bits.{bit_at, odd};
ghost use Rattle.frame.specs.Rate.{shape};
ghost use Rattle.frame.specs.Header.{header};
ghost use Rattle.frame.specs.Data.{steps, symbols, pads};

use crate::rate::Rate;

// What a frame's header says of its data: the rate, and how many bytes there are.
#[derive(Clone, Copy, Debug, PartialEq, Eq)]
pub struct Header {
    pub rate: Rate,
    pub length: u16,
}

// A number's lowest twelve bits, lowest first. (Of what `array::from_fn` makes, nothing is known that its closure captured.)
fn twelve_bits(number: u16) -> [bool; 12]
    ensures { result ≡ map (bit_at number) (range_with_len 0 12) }
{
    let mut bits = [false; 12];
    for (n, bit) in bits.iter_mut().enumerate() {
        *bit = (number >> n) % 2 == 1;
    }
    bits
}

// Whether the number of ones is odd.
fn odd_ones(bits: &[bool]) -> bool
    ensures { result ≡ odd bits.now }
{
    bits.iter().fold(false, |so_far, bit| so_far != *bit)
}

impl Header {
    // The header's bits, before coding; of LENGTH the lowest twelve bits are sent.
    pub fn bits(self) -> [bool; 24]
        ensures { result ≡ header self.rate self.length }
    {
        // made before the row that they go into: made within it, the compiler works on single bits, for twice as long
        let length_bits = twelve_bits(self.length);
        let mut bits = [false; 24];
        bits[0..4].copy_from_slice(&self.rate.bits());
        bits[5..17].copy_from_slice(&length_bits);
        bits[17] = odd_ones(&bits[0..17]);
        bits
    }

    // The data up to the tail's end: 16 SERVICE bits, the bytes and six tail bits.
    fn steps(self) -> usize
        ensures { result ≡ steps self.length }
    {
        22 + 8 * usize::from(self.length)
    }

    // N_SYM, the data symbols of the frame.
    #[tactic(auto, using(crate::proofs::DataBits::symbols_are))]
    pub fn symbol_count(self) -> usize
        ensures { result ≡ symbols (shape self.rate) self.length }
    {
        self.steps().div_ceil(self.rate.n_dbps())
    }

    // The pad bits that fill the last symbol.
    pub fn pad_count(self) -> usize
        ensures { result ≡ pads (shape self.rate) self.length }
    {
        self.symbol_count() * self.rate.n_dbps() - self.steps()
    }
}
