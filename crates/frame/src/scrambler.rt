// The scrambler's register: x1 to x7, x1 the lowest bit. It is moved up four places at a time: the four key bits are
// x7 to x4 xored with x4 to x1, and no two of them depend on each other.
ghost use Rattle.std.specs.Prelude.{◌≡◌, ℕ, ◌-◌, ◌<◌};
ghost use Rattle.frame.specs.Bits.{bit_at};
ghost use Rattle.frame.specs.Scrambler.{key, register_after};

// The next four key bits, the first as the highest bit, and the register after them.
pub fn next_four_key_bits(register: u8) -> (u8, u8)
    ensures bits { (t : ℕ) → t < 4 → bit_at result.0 (3 - t) ≡ key register t }
    ensures four { result.0 < 16 }
    ensures moved { result.1 ≡ register_after register 4 }
{
    let key_bits = (register ^ register / 8) % 16;
    (key_bits, register % 8 * 16 + key_bits)
}
