// The mapper: the coded bits of a symbol, interleaved, to the points of its carriers.
ghost use Rattle.std.specs.Prelude.{◌≡◌, ◌+◌, ◌*◌, ◌<◌, ◌≤◌, length};
ghost use Rattle.frame.specs.Rate.{n_bpsc};
ghost use Rattle.carriers.specs.Mapper.{coordinate, level_of, point_at, mapped};

use crate::carrier::{Carrier, Point};
use frame::rate::Modulation;

// The coordinate that one, two or three bits fix. Behind a leading one they are a place in the table, so that each width has
// places of its own: 2 and 3, 4 to 7, 8 to 15. A branch on coded bits, which look like noise, would be guessed wrong half of
// the time.
#[tactic(auto, using(crate::proofs::Mapping::places))]
fn level(bits: &[bool]) -> f32
    requires some { 0 < length bits.now }
    requires few { length bits.now ≤ 3 }
    ensures { result ≡ coordinate (level_of bits.now) }
{
    let levels: [i8; 16] = [0, 0, -1, 1, -3, -1, 3, 1, -7, -5, -1, -3, 7, 5, 1, 3];
    let mut place = 1;
    // with `fold` nothing says that the place stays in the table
    for bit in bits {
        place = 2 * place + usize::from(*bit);
    }
    f32::from(levels[place])
}

// The point of a carrier: the first half of its bits fixes I, the second Q.
fn point(modulation: Modulation, bits: &[bool]) -> Point
    requires { length bits.now ≡ n_bpsc modulation }
    ensures { result ≡ point_at modulation bits.now 0 }
{
    match modulation {
        Modulation::Bpsk => Point {
            i: level(bits),
            q: 0.0,
        },
        _ => {
            let (first, second) = bits.split_at(bits.len() / 2);
            Point {
                i: level(first),
                q: level(second),
            }
        }
    }
}

// Writes carriers of BITS bits. (Over a `zip` of `iter_mut` a proof knows nothing of what was written.)
fn map_carriers<const BITS: usize>(modulation: Modulation, bits: &[bool], out: &mut [Carrier])
    requires bits_value { BITS ≡ n_bpsc modulation }
    requires bits_len { length bits.now ≡ length out.old * n_bpsc modulation }
    ensures { out.new ≡ mapped modulation (length out.old) bits.now }
{
    for (n, carrier) in out.iter_mut().enumerate() {
        let at = BITS * n;
        *carrier = Carrier::Heard(point(modulation, &bits[at..at + BITS]));
    }
}

// Writes the carriers of a symbol, all of them heard: carrier n holds the N_BPSC bits from place n N_BPSC on. Each modulation
// has a loop of its own, so that no carrier asks for it again.
pub fn map_symbol(modulation: Modulation, bits: &[bool], out: &mut [Carrier])
    requires { length bits.now ≡ length out.old * n_bpsc modulation }
    ensures { out.new ≡ mapped modulation (length out.old) bits.now }
{
    match modulation {
        Modulation::Bpsk => map_carriers::<1>(modulation, bits, out),
        Modulation::Qpsk => map_carriers::<2>(modulation, bits, out),
        Modulation::Qam16 => map_carriers::<4>(modulation, bits, out),
        Modulation::Qam64 => map_carriers::<6>(modulation, bits, out),
    }
}
