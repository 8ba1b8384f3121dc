// The data bits of a frame: SERVICE, the bytes, the tail and the pads, scrambled. They are made four at a time, since a
// byte, the tail and every symbol begin at a multiple of four.
ghost use Rattle.std.specs.Prelude.{◌≡◌, ℕ, ◌+◌, ◌-◌, ◌*◌, ◌%◌, ◌^◌, ◌<◌, ◌≤◌, false, length as len, slice_index_or};
ghost use Rattle.frame.specs.Bits.{bit_at, differs};
ghost use Rattle.frame.specs.Data.{plain_bit};
ghost use Rattle.frame.specs.Scrambler.{register_after};
ghost use Rattle.frame.specs.Streaming.{Masked, bits_under};

use crate::scrambler::next_four_key_bits;

// The data bits `n` to `n + 3` before the scrambler, the first as the lowest bit.
fn four_plain_bits(bytes: &[u8], n: usize) -> u8
    requires { n % 4 ≡ 0 }
    ensures { (t : ℕ) → t < 4 → bit_at result t ≡ plain_bit bytes.now (n + t) }
{
    if n >= 16 && (n - 16) / 8 < bytes.len() {
        bytes[(n - 16) / 8] >> (n % 8)
    } else {
        0
    }
}

// The four key bits over them, the first as the highest bit: none in the tail. (Each test returns at once: after an `||` a
// proof would not know which of both held.)
fn four_masked(length: usize, n: usize, key: u8) -> u8
    requires { n % 4 ≡ 0 }
    ensures { Masked length n key result }
{
    if n < 16 {
        return key;
    }
    if (n - 16) / 8 != length {
        return key;
    }
    if n % 8 == 0 { 0 } else { key % 4 }
}

// Writes four data bits.
fn write_four(plain: u8, key: u8, out: &mut [bool])
    requires { len out.old ≡ 4 }
    ensures { (t : ℕ) → t < 4 → slice_index_or out.new t false ≡ differs (bit_at plain t) (bit_at key (3 - t)) }
{
    for (t, bit) in out.iter_mut().enumerate() {
        let plain_bit = (plain >> t) % 2 == 1;
        let key_bit = (key >> (3 - t)) % 2 == 1;
        *bit = plain_bit != key_bit;
    }
}

// Writes the data bits from `start` on, from the register before them, and returns the register after them.
pub fn fill_data_bits(bytes: &[u8], register: u8, start: usize, out: &mut [bool]) -> u8
    requires start_aligned { start % 4 ≡ 0 }
    requires out_aligned { len out.old % 4 ≡ 0 }
    requires out_bound { start + len out.old < 2 ^ 64 }
    ensures bits { out.new ≡ bits_under bytes.now register start (len out.old) }
    ensures moved { result ≡ register_after register (len out.old) }
{
    let mut here = register;
    // not by `chunks_exact_mut`: nothing is known of a slice's elements after their parts were lent by it
    for g in 0..out.len() / 4 {
        let n = start + 4 * g;
        let (key_bits, after) = next_four_key_bits(here);
        let masked = four_masked(bytes.len(), n, key_bits);
        write_four(
            four_plain_bits(bytes, n),
            masked,
            &mut out[4 * g..4 * g + 4],
        );
        here = after;
    }
    here
}
