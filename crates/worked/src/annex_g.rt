// The published example of the standard's Annex G, quoted from memory of the standard: no copy of it was to hand.

// It is sent at this many Mbit/s, scrambled from this seed.
pub const RATE: u32 = 36;

pub const SEED: u32 = 93;

// A header of the link layer, the first lines of a poem, and the CRC-32 of both, lowest byte first. (Editions differ in what
// they print for the CRC; it touches the last symbols only.)
pub const MESSAGE: &[u8; 100] =
    b"\x04\x02\x00\x2e\x00\x60\x08\xcd\x37\xa6\x00\x20\xd6\x01\x3c\xf1\x00\x60\x08\xad\x3b\xaf\x00\x00\
Joy, bright spark of divinity,\nDaughter of Elysium,\nFire-insired we trea\x67\x33\x21\xb6";
