// The example of Annex G: what is sent against what the standard prints, as far as that was remembered.
use crate::annex_g::{MESSAGE, RATE, SEED};
use crate::edges::EMPTY;
use carriers::carrier::{Carrier, Point};
use coding::coder::State;
use coding::encoder::encode;
use frame::data::fill_data_bits;
use frame::header::Header;
use frame::rate::{CodeRate, Rate};
use phy::sending::Sending;
use std::test::Fail;

const HEADER: Header = Header {
    rate: Rate::R36,
    length: 100,
};

// Whether the bits begin with those of a text of zeros and ones; blanks in the text are passed over.
fn begin_with(bits: &[bool], text: &str) -> bool {
    text.bytes()
        .filter(|digit| *digit != b' ')
        .enumerate()
        .all(|(n, digit)| bits.get(n).copied() == Some(digit == b'1'))
}

// The point that a carrier was heard at; none where it was struck.
fn heard(carriers: &[Carrier], n: usize) -> Option<Point> {
    match carriers.get(n) {
        Some(Carrier::Heard(point)) => Some(*point),
        _ => None,
    }
}

// The four bits that a point of 16-QAM is sent for, as the standard's table has them.
fn bits_of_qam16(point: Point) -> [bool; 4] {
    let inner_i = point.i == 1.0 || point.i == -1.0;
    let inner_q = point.q == 1.0 || point.q == -1.0;
    [point.i > 0.0, inner_i, point.q > 0.0, inner_q]
}

#[test]
fn signal_bits(rt: HostRuntime) {
    assert!(rt; begin_with(&HEADER.bits(), "101100010011000000000000"));
}

#[test]
fn signal_symbol(rt: HostRuntime) -> Result<(), Fail> {
    let interleaved = "100101001101000000010100100000110010010010010100";
    let mut carriers = EMPTY;
    let mut sending = Sending::new(RATE, SEED, MESSAGE)?;
    sending.next(&mut carriers)?;
    assert!(rt; interleaved.len() == 48);
    for (carrier, bit) in carriers.iter().zip(interleaved.bytes()) {
        let i = if bit == b'1' { 1.0 } else { -1.0 };
        assert_eq!(rt; *carrier, Carrier::Heard(Point { i, q: 0.0 }));
    }
    Ok(())
}

#[test]
fn scrambled_bits_of_the_first_symbol(rt: HostRuntime) {
    let mut bits = [false; 144];
    let _ = fill_data_bits(MESSAGE, 93, 0, &mut bits);
    let published =
        "0110 1100 0001 1001 1000 1001 1000 1111 0110 1000 0010 0001 1111 0100 1010 0101 0110 0001 0100 1111 1101 0111 1010 1110 0010 0100 0000 1100 1111 0011 0011 1010 1110 010";
    assert!(rt; begin_with(&bits, published));
}

#[test]
fn coded_signal(rt: HostRuntime) {
    let mut coded = [false; 48];
    let _ = encode(&HEADER.bits(), CodeRate::Half, State::zeros(), &mut coded);
    assert!(rt; begin_with(&coded, "110100011010000100000010001111100111000000000000"));
}

#[test]
fn coded_bits_of_the_first_symbol(rt: HostRuntime) {
    let mut bits = [false; 144];
    let mut coded = [false; 192];
    let _ = fill_data_bits(MESSAGE, 93, 0, &mut bits);
    let _ = encode(&bits, CodeRate::ThreeQuarters, State::zeros(), &mut coded);
    let published =
        "0010 1011 0000 1000 1010 0001 1111 0000 1001 1101 1011 0101 1001 1010 0001 1101 0100 1010 1111 1011 1110 1000 1100 0010 1000 1111 1100 0000 1100 1000 0111 0011 1100 0000 0100 0011 1110 0000";
    assert!(rt; begin_with(&coded, published));
}

// The first data symbol as the standard prints it after the interleaver: four bits for each of the first 32 carriers.
#[test]
fn interleaved_bits_of_the_first_symbol(rt: HostRuntime) -> Result<(), Fail> {
    let published =
        "0111 0111 1111 0000 1110 1111 1100 0100 0111 0011 0000 0000 1011 1111 0001 0001 0001 0000 1001 1010 0001 1101 0001 0010 0110 1110 0011 1000 1111 0101 0110 1001";
    let mut carriers = EMPTY;
    let mut sending = Sending::new(RATE, SEED, MESSAGE)?;
    sending.next(&mut carriers)?;
    sending.next(&mut carriers)?;
    let mut seen = 0usize;
    for (n, group) in published.split(' ').enumerate() {
        let point = heard(&carriers, n).ok_or("struck")?;
        assert!(rt; begin_with(&bits_of_qam16(point), group));
        seen = n;
    }
    assert_eq!(rt; seen, 31);
    Ok(())
}

#[test]
fn points_of_the_first_symbol(rt: HostRuntime) -> Result<(), Fail> {
    let published: [(f32, f32); 18] = [
        (-1.0, 1.0),
        (-1.0, 1.0),
        (1.0, 1.0),
        (-3.0, -3.0),
        (1.0, 3.0),
        (1.0, 1.0),
        (1.0, -3.0),
        (-1.0, -3.0),
        (-1.0, 1.0),
        (-3.0, 1.0),
        (-3.0, -3.0),
        (-3.0, -3.0),
        (3.0, 1.0),
        (1.0, 1.0),
        (-3.0, -1.0),
        (-3.0, -1.0),
        (-3.0, -1.0),
        (-3.0, -3.0),
    ];
    let mut carriers = EMPTY;
    let mut sending = Sending::new(RATE, SEED, MESSAGE)?;
    sending.next(&mut carriers)?;
    sending.next(&mut carriers)?;
    for (carrier, (i, q)) in carriers.iter().zip(published) {
        assert_eq!(rt; *carrier, Carrier::Heard(Point { i, q }));
    }
    Ok(())
}
