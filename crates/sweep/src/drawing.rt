// The frames to send, from one run of pseudo-random numbers.
use std::alloc::{AllocError, Global};
use sweeping::generator::Generator;

// Frames of a few bytes, short ones, longer ones and those close to the longest take turns, eight of each.
pub fn length(generator: &mut Generator, number: u32) -> u16 {
    let drawn = (generator.next() & 0xffff) as u16;
    match number / 8 % 4 {
        0 => 1 + drawn % 8,
        1 => 1 + drawn % 100,
        2 => 1 + drawn % 1500,
        _ => 4095 - drawn % 64,
    }
}

pub fn bytes(generator: &mut Generator, heap: Global, length: u16) -> Result<Vec<u8>, AllocError> {
    (0..length)
        .map(|_| (generator.next() & 255) as u8)
        .collect(heap)
}
