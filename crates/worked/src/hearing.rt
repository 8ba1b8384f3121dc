// The edges of demodulating: single coordinates, symbols as they were sent, holes, and every refusal in its order.
use carriers::carrier::{Carrier, Point};
use carriers::fault::Axis;
use carriers::soft::SoftBit;
use coding::coder::State;
use frame::data::fill_data_bits;
use frame::header::Header;
use frame::rate::{CodeRate, Rate};
use phy::demodulator::demodulate;
use phy::fault::SendFault;
use phy::sending::Sending;
use std::test::Fail;

const RATES: [u32; 8] = [6, 9, 12, 18, 24, 36, 48, 54];

// What is in the lent pairs before a call.
const BEFORE: SoftBit = SoftBit::Value(7);

fn lent_pairs() -> [(SoftBit, SoftBit); 216] {
    [(BEFORE, BEFORE); 216]
}

fn heard_at(i: f32, q: f32) -> Carrier {
    Carrier::Heard(Point { i, q })
}

fn all_at(i: f32, q: f32) -> [Carrier; 48] {
    [heard_at(i, q); 48]
}

// How many of the bits are this one.
fn count(pairs: &[(SoftBit, SoftBit)], wanted: SoftBit) -> usize {
    let of_a = pairs.iter().filter(|(a, _)| *a == wanted).count();
    let of_b = pairs.iter().filter(|(_, b)| *b == wanted).count();
    of_a.saturating_add(of_b)
}

// The number of the fault that refuses the carriers, and the carrier and axis that it names; none where nothing is refused.
fn refusal(
    rate: Rate,
    carriers: &[Carrier],
    pairs: &mut [(SoftBit, SoftBit); 216],
) -> Option<(u8, Option<(usize, Axis)>)> {
    demodulate(rate, carriers, pairs)
        .err()
        .map(|fault| (fault.number(), fault.carrier()))
}

// A coordinate on every carrier's I, and the value that BPSK makes of it.
#[test]
fn coordinates(rt: HostRuntime) -> Result<(), Fail> {
    let rows: [(f32, i16); 26] = [
        (0.0, 0),
        (-0.0, 0),
        (1e-45, 0),
        (-1e-45, 0),
        (1.1754942e-38, 0),
        (1.1754944e-38, 0),
        (0.06, 0),
        (0.062499996, 0),
        (-0.062499996, 0),
        (0.0625, 1),
        (-0.0625, -1),
        (-0.07, -1),
        (0.12499999, 1),
        (0.99999994, 15),
        (-1.0, -16),
        (5.0, 80),
        (7.9999995, 127),
        (-7.9999995, -127),
        (8.0, 128),
        (-8.0, -128),
        (8.000001, 128),
        (-8.000001, -128),
        (3.4028235e38, 128),
        (-3.4028235e38, -128),
        (f32::INFINITY, 128),
        (f32::NEG_INFINITY, -128),
    ];
    for (coordinate, value) in rows {
        let mut pairs = lent_pairs();
        demodulate(Rate::R6, &all_at(coordinate, 0.0), &mut pairs)?;
        assert_eq!(rt; count(&pairs[0..24], SoftBit::Value(value)), 48);
    }
    Ok(())
}

// How often the number stands in the row.
fn times(row: &[i16], wanted: i16) -> usize {
    row.iter().filter(|value| **value == wanted).count()
}

// Whether the values of the row come for every coordinate, and no others: each coordinate has one of each.
fn has_values(pairs: &[(SoftBit, SoftBit)], row: &[i16]) -> bool {
    row.iter().all(|value| {
        count(pairs, SoftBit::Value(*value)) == times(row, *value).saturating_mul(96)
    })
}

// Both coordinates of every carrier, and the two values that 16-QAM makes of each: the four levels, a nought, the ends.
#[test]
fn values_of_16_qam(rt: HostRuntime) -> Result<(), Fail> {
    let rows: [(f32, i16, i16); 7] = [
        (-3.0, -48, -16),
        (-1.0, -16, 16),
        (1.0, 16, 16),
        (3.0, 48, -16),
        (2.0, 32, 0),
        (f32::INFINITY, 128, -96),
        (f32::NEG_INFINITY, -128, -96),
    ];
    for (coordinate, first, second) in rows {
        let mut pairs = lent_pairs();
        demodulate(Rate::R24, &all_at(coordinate, coordinate), &mut pairs)?;
        assert!(rt; has_values(&pairs[0..96], &[first, second]));
    }
    Ok(())
}

// The same for 64-QAM, whose every third output is stolen at coding rate 2/3.
#[test]
fn values_of_64_qam(rt: HostRuntime) -> Result<(), Fail> {
    let rows: [(f32, i16, i16, i16); 12] = [
        (-7.0, -112, -48, -16),
        (-5.0, -80, -16, 16),
        (-3.0, -48, 16, 16),
        (-1.0, -16, 48, -16),
        (1.0, 16, 48, -16),
        (3.0, 48, 16, 16),
        (5.0, 80, -16, 16),
        (7.0, 112, -48, -16),
        (2.0, 32, 32, 0),
        (4.0, 64, 0, 32),
        (f32::INFINITY, 128, -64, -32),
        (f32::NEG_INFINITY, -128, -64, -32),
    ];
    for (coordinate, first, second, third) in rows {
        let mut pairs = lent_pairs();
        demodulate(Rate::R48, &all_at(coordinate, coordinate), &mut pairs)?;
        assert!(rt; has_values(&pairs[0..192], &[first, second, third]));
        assert_eq!(rt; count(&pairs[0..192], SoftBit::Absent), 96);
    }
    Ok(())
}

// I is 40, -8 and Q -12, 20: each axis has its own values.
#[test]
fn two_axes(rt: HostRuntime) -> Result<(), Fail> {
    let mut pairs = lent_pairs();
    demodulate(Rate::R24, &all_at(2.5, -0.75), &mut pairs)?;
    for value in [40, -8, -12, 20] {
        assert_eq!(rt; count(&pairs[0..96], SoftBit::Value(value)), 48);
    }
    Ok(())
}

// Which of A and B are sent of the pair.
fn sent_of(code_rate: CodeRate, pair: usize) -> (bool, bool) {
    match code_rate {
        CodeRate::Half => (true, true),
        CodeRate::TwoThirds => (true, pair % 2 == 0),
        CodeRate::ThreeQuarters => (pair % 3 != 2, pair % 3 != 1),
    }
}

// Whether a bit that was sent is heard as that bit or not at all, and one that was stolen not at all.
fn may_be(sent: bool, bit: bool, heard: SoftBit) -> bool {
    match heard {
        SoftBit::Value(value) => sent && (if bit { value > 0 } else { value < 0 }),
        SoftBit::Absent => true,
    }
}

// Codes the bits, and holds every output against what was heard of it; the coder's state after them, or none where one differs.
fn follow(
    code_rate: CodeRate,
    bits: &[bool],
    pairs: &[(SoftBit, SoftBit)],
    state: State,
) -> Option<State> {
    let mut state = state;
    for (n, (bit, (heard_a, heard_b))) in bits.iter().zip(pairs.iter()).enumerate() {
        let (a, b) = state.outputs(*bit);
        let (a_sent, b_sent) = sent_of(code_rate, n);
        if !may_be(a_sent, a, *heard_a) || !may_be(b_sent, b, *heard_b) {
            return None;
        }
        state = state.next(*bit);
    }
    Some(state)
}

// Strikes every third carrier, or none, and says how many are left.
fn thin(carriers: &mut [Carrier; 48], is_thinned: bool) -> usize {
    if !is_thinned {
        return 48;
    }
    for carrier in carriers.iter_mut().step_by(3) {
        *carrier = Carrier::Struck;
    }
    32
}

// Demodulates a data symbol of which so many carriers are left, and follows it; none where not exactly the bits of the others
// are absent, or a bit differs.
fn follow_symbol(
    rate: Rate,
    bits: &[bool],
    carriers: &[Carrier; 48],
    left: usize,
    state: State,
) -> Option<State> {
    let n_dbps = rate.n_dbps();
    let mut pairs = lent_pairs();
    demodulate(rate, carriers, &mut pairs).ok()?;
    let heard = left.saturating_mul(rate.modulation().n_bpsc());
    if count(&pairs[0..n_dbps], SoftBit::Absent) != (2 * n_dbps).saturating_sub(heard) {
        return None;
    }
    follow(rate.code_rate(), bits, &pairs[0..n_dbps], state)
}

// Follows the data symbols of a sending to its end, and says how many they were; none where one is not heard as it was sent.
fn follow_sending(
    rate: Rate,
    sending: &mut Sending,
    bits: &[bool],
    is_thinned: bool,
) -> Option<usize> {
    let mut state = State::zeros();
    for k in 0..100usize {
        let mut carriers = [Carrier::Struck; 48];
        if sending.next(&mut carriers) == Err(SendFault::Over) {
            return Some(k);
        }
        let left = thin(&mut carriers, is_thinned);
        let part = bits.chunks_exact(rate.n_dbps()).nth(k)?;
        state = follow_symbol(rate, part, &carriers, left, state)?;
    }
    None
}

// The header and all data symbols of a frame at every rate, tail and pads too, bit by bit against the coder: whole, and with
// every third carrier struck out.
#[test]
fn symbols_as_sent(rt: HostRuntime) -> Result<(), Fail> {
    let bytes =
        b"what was sent is heard: every bit of every symbol of this frame, at every rate, or was never sent.";
    let mut bits = [false; 960];
    let _ = fill_data_bits(bytes, 93, 0, &mut bits);
    for number in RATES {
        let rate = Rate::try_from(number)?;
        let header = Header { rate, length: 98 };
        for is_thinned in [false, true] {
            let mut carriers = [Carrier::Struck; 48];
            let mut pairs = lent_pairs();
            let mut sending = Sending::new(number, 93, bytes)?;
            sending.next(&mut carriers)?;
            let _ = thin(&mut carriers, is_thinned);
            demodulate(Rate::R6, &carriers, &mut pairs)?;
            assert_eq!(rt;
                follow(
                    CodeRate::Half,
                    &header.bits(),
                    &pairs[0..24],
                    State::zeros()
                ),
                Some(State::zeros())
            );
            let followed = follow_sending(rate, &mut sending, &bits, is_thinned);
            assert_eq!(rt; followed, Some(header.symbol_count()));
        }
    }
    Ok(())
}

// Whether the second was heard as the first, but for holes exactly where the first has a value below nought.
fn differ_in_holes(first: SoftBit, second: SoftBit) -> bool {
    match first {
        SoftBit::Value(value) if value < 0 => second == SoftBit::Absent,
        _ => second == first,
    }
}

fn all_differ_in_holes(first: &[(SoftBit, SoftBit)], second: &[(SoftBit, SoftBit)]) -> bool {
    first.iter().zip(second).all(|((a, b), (c, d))| differ_in_holes(*a, *c)
        && differ_in_holes(*b, *d))
}

// A struck carrier takes its own bits and no others with it: one carrier has zeros alone among carriers of ones alone, and is
// then struck out. Places past N_DBPS stay as they were.
#[test]
fn holes(rt: HostRuntime) -> Result<(), Fail> {
    let rows: [(Rate, f32, f32); 8] = [
        (Rate::R6, 1.0, -1.0),
        (Rate::R9, 1.0, -1.0),
        (Rate::R12, 1.0, -1.0),
        (Rate::R18, 1.0, -1.0),
        (Rate::R24, 1.0, -3.0),
        (Rate::R36, 1.0, -3.0),
        (Rate::R48, 3.0, -7.0),
        (Rate::R54, 3.0, -7.0),
    ];
    for (rate, ones, zeros) in rows {
        let n_dbps = rate.n_dbps();
        // by its place, since it is written twice
        for place in 0..48usize {
            let mut carriers = all_at(ones, ones);
            let mut first = lent_pairs();
            let mut second = lent_pairs();
            carriers[place] = heard_at(zeros, zeros);
            demodulate(rate, &carriers, &mut first)?;
            carriers[place] = Carrier::Struck;
            demodulate(rate, &carriers, &mut second)?;
            assert!(rt; all_differ_in_holes(&first, &second));
            assert_eq!(rt;
                count(&second, SoftBit::Absent),
                count(&first, SoftBit::Absent).saturating_add(rate.modulation().n_bpsc())
            );
            assert_eq!(rt; count(&second, BEFORE), 432 - 2 * n_dbps);
        }
    }
    let mut pairs = lent_pairs();
    demodulate(Rate::R54, &[Carrier::Struck; 48], &mut pairs)?;
    assert_eq!(rt; count(&pairs, SoftBit::Absent), 432);
    Ok(())
}

// The first carrier is named, I before Q, used or not; the number of carriers comes first; nothing is written.
#[test]
fn refusals(rt: HostRuntime) {
    let mut pairs = lent_pairs();
    let good = heard_at(1.0, 0.0);
    let bad_i = heard_at(f32::NAN, 1.0);
    let bad_q = heard_at(1.0, f32::NAN);
    let both = heard_at(f32::NAN, f32::NAN);
    let mut carriers = [good; 48];
    carriers[47] = bad_q;
    assert_eq!(rt;
        refusal(Rate::R6, &carriers, &mut pairs),
        Some((7, Some((47, Axis::Q))))
    );
    carriers[46] = both;
    assert_eq!(rt;
        refusal(Rate::R54, &carriers, &mut pairs),
        Some((7, Some((46, Axis::I))))
    );
    carriers[0] = bad_q;
    carriers[1] = bad_i;
    assert_eq!(rt;
        refusal(Rate::R36, &carriers, &mut pairs),
        Some((7, Some((0, Axis::Q))))
    );
    carriers[0] = Carrier::Struck;
    assert_eq!(rt;
        refusal(Rate::R12, &carriers, &mut pairs),
        Some((7, Some((1, Axis::I))))
    );
    assert_eq!(rt;
        refusal(Rate::R12, &carriers[0..47], &mut pairs),
        Some((1, None))
    );
    assert_eq!(rt;
        refusal(Rate::R12, &[bad_i; 49], &mut pairs),
        Some((1, None))
    );
    assert_eq!(rt; refusal(Rate::R12, &[], &mut pairs), Some((1, None)));
    assert_eq!(rt; count(&pairs, BEFORE), 432);
    assert_eq!(rt; refusal(Rate::R12, &[good; 48], &mut pairs), None);
    assert_eq!(rt;
        refusal(Rate::R6, &all_at(1.0, f32::INFINITY), &mut pairs),
        None
    );
}
