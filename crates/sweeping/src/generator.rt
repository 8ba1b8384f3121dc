// Pseudo-random numbers.
ghost use Rattle.std.specs.Prelude.{◌≡◌, ◌/◌, ◌^◌};
ghost use Rattle.sweeping.specs.Generator.{next_state};

use std::marker::Model;

// A linear congruential generator, whose state runs on from turn to turn.
#[derive(Clone, Copy, Debug, PartialEq, Eq)]
pub struct Generator {
    state: u32,
}

// Contracts see the state.
impl Model for Generator {
    ghost use Rattle.std.specs.Prelude.{ℕ, ◌^◌, ◌<◌};

    ghost Value = { ℕ };

    ghost view = { λ g. g.state };

    ghost invariant = { λ g. g.state < 2 ^ 32 };

    ghost inverse = { λ n. record { state = n } };
}

impl Generator {
    pub fn new() -> Generator
        ensures { result ≡ 1 }
    {
        Generator { state: 1 }
    }

    // The upper half of the state, since the lowest bits of such a generator repeat soon.
    pub fn next(&mut self) -> u32
        ensures moved { self.new ≡ next_state self.old }
        ensures drawn { result ≡ self.new / 2 ^ 16 }
    {
        self.state = self.state.wrapping_mul(1664525).wrapping_add(1013904223);
        self.state >> 16
    }
}

#[cfg(test)]
mod tests {
    use super::*;

    // As C computes them.
    #[test]
    fn first_numbers(rt: HostRuntime) {
        let mut generator = Generator::new();
        for number in [15496, 24200, 33046, 46195, 3312, 24216, 50774, 36450] {
            assert_eq!(rt; generator.next(), number);
        }
    }
}
