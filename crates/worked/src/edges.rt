// The edges of sending: the shortest and the longest frame at every rate, and every refusal in its order.
use carriers::carrier::Carrier;
use frame::header::Header;
use frame::rate::Rate;
use phy::fault::SendFault;
use phy::sending::Sending;
use std::test::Fail;

pub const EMPTY: [Carrier; 48] = [Carrier::Struck; 48];

// The number of the fault that refuses a sending, if one does.
fn making_fault(rate: u32, seed: u32, bytes: &[u8]) -> Option<u8> {
    Sending::new(rate, seed, bytes)
        .err()
        .map(|fault| fault.number())
}

// The number of the fault that refuses the next symbol, if one does.
fn next_fault(sending: &mut Sending, out: &mut [Carrier]) -> Option<u8> {
    sending.next(out).err().map(|fault| fault.number())
}

fn all_heard(carriers: &[Carrier]) -> bool {
    carriers
        .iter()
        .all(|carrier| matches!(carrier, Carrier::Heard(_)))
}

fn none_heard(carriers: &[Carrier]) -> bool {
    carriers.iter().all(|carrier| *carrier == Carrier::Struck)
}

// How many symbols a sending writes before it is over; none where a symbol is not heard whole, or the end does not come.
fn symbols_sent(rate: u32, seed: u32, bytes: &[u8]) -> Result<Option<usize>, SendFault> {
    let mut sending = Sending::new(rate, seed, bytes)?;
    for n in 0..3000 {
        let mut carriers = EMPTY;
        match sending.next(&mut carriers) {
            Ok(()) if all_heard(&carriers) => {}
            Err(SendFault::Over) => return Ok(Some(n)),
            _ => return Ok(None),
        }
    }
    Ok(None)
}

// One header and N_SYM data symbols.
#[test]
fn shortest_and_longest(rt: HostRuntime) -> Result<(), Fail> {
    let long = [0xa5u8; 4095];
    let rows: [(u32, usize, usize); 8] = [
        (6, 3, 1367),
        (9, 2, 912),
        (12, 2, 684),
        (18, 2, 457),
        (24, 2, 343),
        (36, 2, 229),
        (48, 2, 172),
        (54, 2, 153),
    ];
    for (rate, short_count, long_count) in rows {
        assert_eq!(rt; symbols_sent(rate, 1, &[0])?, Some(short_count));
        assert_eq!(rt; symbols_sent(rate, 127, &long)?, Some(long_count));
    }
    Ok(())
}

#[test]
fn refusals_of_making(rt: HostRuntime) {
    let bytes = [7u8; 4096];
    assert_eq!(rt; making_fault(7, 0, &[]), Some(16));
    assert_eq!(rt; making_fault(0, 1, &[1]), Some(16));
    assert_eq!(rt; making_fault(54, 0, &[]), Some(13));
    assert_eq!(rt; making_fault(54, 128, &bytes), Some(13));
    assert_eq!(rt; making_fault(54, 127, &[]), Some(14));
    assert_eq!(rt; making_fault(54, 1, &bytes), Some(14));
    assert_eq!(rt; making_fault(54, 127, &[1]), None);
    assert_eq!(rt; making_fault(6, 1, &bytes[0..4095]), None);
}

// A slice that is not 48 long neither moves the sending on nor is written to.
#[test]
fn refused_slices(rt: HostRuntime) -> Result<(), Fail> {
    let mut short = [Carrier::Struck; 47];
    let mut long = [Carrier::Struck; 49];
    let mut carriers = EMPTY;
    let mut sending = Sending::new(54, 93, &[1, 2, 3])?;
    assert_eq!(rt; next_fault(&mut sending, &mut short), Some(1));
    assert_eq!(rt; next_fault(&mut sending, &mut long), Some(1));
    assert!(rt; none_heard(&short) && none_heard(&long));
    assert_eq!(rt; next_fault(&mut sending, &mut carriers), None);
    assert_eq!(rt; next_fault(&mut sending, &mut carriers), None);
    assert_eq!(rt; next_fault(&mut sending, &mut carriers), Some(15));
    Ok(())
}

// At the end 15 comes before 1, and nothing is written.
#[test]
fn refused_at_the_end(rt: HostRuntime) -> Result<(), Fail> {
    let mut short = [Carrier::Struck; 47];
    let mut after = EMPTY;
    let mut carriers = EMPTY;
    let mut sending = Sending::new(54, 93, &[1, 2, 3])?;
    sending.next(&mut carriers)?;
    sending.next(&mut carriers)?;
    assert_eq!(rt; next_fault(&mut sending, &mut short), Some(15));
    assert_eq!(rt; next_fault(&mut sending, &mut after), Some(15));
    assert!(rt; none_heard(&short) && none_heard(&after));
    Ok(())
}

#[test]
fn symbols_and_pads(rt: HostRuntime) {
    let rows: [(Rate, u16, usize, usize); 3] = [
        (Rate::R36, 100, 6, 42),
        (Rate::R6, 1, 2, 18),
        (Rate::R54, 4095, 152, 50),
    ];
    for (rate, length, symbols, pads) in rows {
        let header = Header { rate, length };
        assert_eq!(rt; header.symbol_count(), symbols);
        assert_eq!(rt; header.pad_count(), pads);
    }
}
