// The sender as one call from C, so that it can be timed beside a sender in C.
#![tactic(auto)]

use carriers::carrier::Carrier;
use phy::sending::Sending;

// Every seventh carrier counts: enough to tell that the symbols are right, and cheap beside the sending. The sum of a
// frame stays below 2^24, so it is exact.
fn add_symbol(sum: f32, symbol: &[Carrier]) -> f32 {
    symbol
        .iter()
        .step_by(7)
        .fold(sum, |sum, carrier| match carrier {
            Carrier::Heard(point) => sum + ((point.i + 8.0) * 31.0 + (point.q + 8.0)),
            Carrier::Struck => sum,
        })
}

// Writes all symbols, one after the other, over the same 48 carriers.
fn send_all(sending: &mut Sending, symbol: &mut [Carrier]) -> f32 {
    let mut sum = 0.0;
    // a frame has fewer symbols than this, so the sending ends the loop
    for _ in 0..u16::MAX {
        let Ok(()) = sending.next(symbol) else {
            break;
        };
        sum = add_symbol(sum, symbol);
    }
    sum
}

// Sends a whole frame and returns a sum over its carriers, or 0 where it is refused: it is C that reads it.
#[unsafe(no_mangle)]
pub extern "C" fn bench_send(rate: u32, seed: u32, bytes: &[u8]) -> f32 {
    let mut symbol = [Carrier::Struck; 48];
    let Ok(mut sending) = Sending::new(rate, seed, bytes) else {
        return 0.0;
    };
    send_all(&mut sending, &mut symbol)
}
