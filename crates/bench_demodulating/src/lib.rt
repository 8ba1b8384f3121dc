// The demodulator as one call from C, so that it can be timed beside one in C.
#![tactic(auto)]

use carriers::carrier::{Carrier, Point};
use carriers::soft::SoftBit;
use frame::rate::Rate;
use phy::demodulator::demodulate;
use sweeping::soft::code;

// The carriers of 64 symbols.
const DRAWN: usize = 3072;

// A carrier from two bytes: one in sixteen is struck, and the others lie between -8 and 8 on both axes. (No `From`: pairs of
// bytes and carriers are both types of other crates.)
fn carrier_from(first: u8, second: u8) -> Carrier {
    if second % 16 == 0 {
        return Carrier::Struck;
    }
    Carrier::Heard(Point {
        i: (first as f32 - 128.0) / 16.0,
        q: (second as f32 - 128.0) / 16.0,
    })
}

// Every seventh pair counts: enough to tell that the pairs are right, and cheap beside the demodulating.
fn add_pairs(sum: u32, pairs: &[(SoftBit, SoftBit)]) -> u32 {
    pairs.iter().step_by(7).fold(sum, |sum, (a, b)| {
        let both = code(*a).wrapping_mul(3).wrapping_add(code(*b));
        sum.wrapping_mul(31).wrapping_add(both)
    })
}

// Demodulates the symbols one by one over the same pairs.
fn demodulate_all(
    rate: Rate,
    carriers: &[Carrier],
    pairs: &mut [(SoftBit, SoftBit); 216],
    mut sum: u32,
) -> u32 {
    for symbol in carriers.chunks_exact(48) {
        if demodulate(rate, symbol, pairs).is_ok() {
            sum = add_pairs(sum, &pairs[0..rate.n_dbps()]);
        }
    }
    sum
}

fn make_carriers(bytes: &[u8], carriers: &mut [Carrier]) {
    let (drawn, _) = bytes.as_chunks::<2>();
    for (carrier, [first, second]) in carriers.iter_mut().zip(drawn) {
        *carrier = carrier_from(*first, *second);
    }
}

fn run_turns(rate: Rate, turns: u32, carriers: &[Carrier]) -> u32 {
    let mut pairs = [(SoftBit::Absent, SoftBit::Absent); 216];
    let mut sum = 0;
    for _ in 0..turns {
        sum = demodulate_all(rate, carriers, &mut pairs, sum);
    }
    sum
}

// Makes 64 symbols from 6,144 bytes, demodulates all of them `turns` times and returns a sum over the pairs, or 0 where the
// rate or the number of bytes is another.
#[unsafe(no_mangle)]
pub extern "C" fn bench_demodulate(rate: u32, turns: u32, bytes: &[u8]) -> u32 {
    let Ok(rate) = Rate::try_from(rate) else {
        return 0;
    };
    if bytes.len() != 2 * DRAWN {
        return 0;
    }
    let mut carriers = [Carrier::Struck; DRAWN];
    make_carriers(bytes, &mut carriers);
    run_turns(rate, turns, &carriers)
}
