// What is sent of a frame, told by a digest over the levels of its carriers, in order.
use carriers::carrier::{Carrier, Point};
use phy::fault::SendFault;
use phy::sending::Sending;
use std::num::saturating_f32_to_u32;
use sweeping::digest::Digest;

// A level is raised by 8, so that none is negative.
fn add_level(digest: &mut Digest, level: f32) {
    digest.add(saturating_f32_to_u32(level + 8.0));
}

fn add_symbol(digest: &mut Digest, symbol: &[Carrier]) {
    for carrier in symbol {
        let (i, q) = match *carrier {
            Carrier::Heard(Point { i, q }) => (i, q),
            Carrier::Struck => (0.0, 0.0),
        };
        add_level(digest, i);
        add_level(digest, q);
    }
}

// What was sent of a frame: how many data symbols, and the digest of all symbols, the header's among them.
#[derive(Clone, Copy)]
pub struct Sent {
    pub symbols: usize,
    pub digest: u32,
}

// Sends the bytes until the sending is over.
pub fn send_frame(rate: u32, seed: u32, bytes: &[u8]) -> Result<Sent, SendFault> {
    let mut sending = Sending::new(rate, seed, bytes)?;
    let mut digest = Digest::new();
    // no frame has as many symbols as this
    for symbols in 0..usize::from(u16::MAX) {
        let mut symbol = [Carrier::Struck; 48];
        match sending.next(&mut symbol) {
            Ok(()) => add_symbol(&mut digest, &symbol),
            Err(SendFault::Over) => return Ok(Sent {
                symbols: symbols.saturating_sub(1),
                digest: digest.value(),
            }),
            Err(fault) => return Err(fault),
        }
    }
    Err(SendFault::Over)
}
