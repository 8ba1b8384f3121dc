// The convolutional coder, one bit at a time.
ghost use Rattle.std.specs.Prelude.{◌≡◌, Some};
ghost use Rattle.coding.specs.Coder.{next_state, outputs as outputs_of, state_or_none};
ghost use Rattle.coding.specs.Texts.{no_state_text};

use std::error::Error;
use std::fmt;
use std::marker::Model;

// What the coder holds between two bits: the last six, as a number in which the newest counts 32.
#[derive(Clone, Copy, Debug, PartialEq, Eq)]
pub struct State {
    bits: u8,
}

// Contracts see the number.
impl Model for State {
    ghost use Rattle.std.specs.Prelude.{ℕ, ◌<◌};

    ghost Value = { ℕ };

    ghost view = { λ s. s.bits };

    ghost invariant = { λ s. s.bits < 64 };

    ghost inverse = { λ n. record { bits = n } };
}

// A number that is no state, since it has more than six bits.
#[derive(Clone, Copy, Debug, PartialEq, Eq)]
pub struct NoState {
    pub number: u8,
}

impl fmt::Display for NoState {
    ghost output = { λ none. Some (no_state_text none) };

    fn fmt<W: fmt::Write>(&self, f: &mut fmt::Formatter<W>) -> fmt::Result {
        let number = self.number;
        write!(f, "{number} is no state of the coder: it is not below 64")
    }
}

impl Error for NoState {}

impl TryFrom<u8> for State {
    type Error = NoState;

    ghost try_from_gives = { λ number result. result ≡ state_or_none number };

    fn try_from(number: u8) -> Result<State, NoState> {
        if number < 64 {
            Ok(State { bits: number })
        } else {
            Err(NoState { number })
        }
    }
}

impl From<State> for u8 {
    ghost from_gives = { λ state number. number ≡ state };

    fn from(state: State) -> u8 {
        state.bits
    }
}

impl State {
    // The state before the first bit.
    pub fn zeros() -> State
        ensures { result ≡ 0 }
    {
        State { bits: 0 }
    }

    // The state after one bit more.
    pub fn next(self, bit: bool) -> State
        ensures { result ≡ next_state self bit }
    {
        State {
            bits: self.bits / 2 + 32 * bit as u8,
        }
    }

    // The outputs A and B as the bit comes: generators 133 and 171, octal.
    pub fn outputs(self, bit: bool) -> (bool, bool)
        ensures { result ≡ outputs_of self bit }
    {
        let register = 64 * bit as u32 + self.bits as u32;
        (
            (register & 0o133).count_ones() % 2 == 1,
            (register & 0o171).count_ones() % 2 == 1,
        )
    }
}
