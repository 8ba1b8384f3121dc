// 32-bit FNV-1a over whole numbers.
ghost use Rattle.std.specs.Prelude.{◌≡◌};
ghost use Rattle.sweeping.specs.Digest.{empty, with_item};

use std::marker::Model;

#[derive(Clone, Copy, Debug, PartialEq, Eq)]
pub struct Digest {
    value: u32,
}

// Contracts see the value.
impl Model for Digest {
    ghost use Rattle.std.specs.Prelude.{ℕ, ◌^◌, ◌<◌};

    ghost Value = { ℕ };

    ghost view = { λ d. d.value };

    ghost invariant = { λ d. d.value < 2 ^ 32 };

    ghost inverse = { λ n. record { value = n } };
}

impl Digest {
    // The digest of nothing.
    pub fn new() -> Digest
        ensures { result ≡ empty }
    {
        Digest { value: 2166136261 }
    }

    pub fn add(&mut self, item: u32)
        ensures { self.new ≡ with_item self.old item }
    {
        self.value = (self.value ^ item).wrapping_mul(16777619);
    }

    pub fn value(&self) -> u32
        ensures { result ≡ self.now }
    {
        self.value
    }
}

#[cfg(test)]
mod tests {
    use super::*;

    // FNV-1a's published values of these texts.
    #[test]
    fn published_values(rt: HostRuntime) {
        let rows: [(&str, u32); 3] = [("", 0x811c9dc5), ("a", 0xe40c292c), ("foobar", 0xbf9cf968)];
        for (text, value) in rows {
            let mut digest = Digest::new();
            for byte in text.bytes() {
                digest.add(u32::from(byte));
            }
            assert_eq!(rt; digest.value(), value);
        }
    }
}
