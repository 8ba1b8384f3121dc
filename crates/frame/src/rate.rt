// The eight rates of a 20 MHz frame, with the modulation and the coding rate of each.
ghost use Rattle.std.specs.Prelude.{◌≡◌, Some};
ghost use Rattle.frame.specs.Rate.{row, rate_or_unknown, mode_of, shape, n_bpsc, n_dbps};
ghost use Rattle.frame.specs.Texts.{unknown_rate_text};

use std::error::Error;
use std::fmt;

// How many coded bits a carrier holds, and by which constellation.
#[derive(Clone, Copy, Debug, PartialEq, Eq)]
pub enum Modulation {
    Bpsk,
    Qpsk,
    Qam16,
    Qam64,
}

// How many data bits there are for each coded bit that is sent.
#[derive(Clone, Copy, Debug, PartialEq, Eq)]
pub enum CodeRate {
    Half,
    TwoThirds,
    ThreeQuarters,
}

// How a symbol's data bits are coded and mapped, by which all rates differ.
#[derive(Clone, Copy, Debug, PartialEq, Eq)]
pub struct Mode {
    pub modulation: Modulation,
    pub code_rate: CodeRate,
}

// A rate, named by its Mbit/s.
#[derive(Clone, Copy, Debug, PartialEq, Eq)]
pub enum Rate {
    R6,
    R9,
    R12,
    R18,
    R24,
    R36,
    R48,
    R54,
}

// A number of Mbit/s that no rate has.
#[derive(Clone, Copy, Debug, PartialEq, Eq)]
pub struct UnknownRate {
    pub number: u32,
}

impl fmt::Display for UnknownRate {
    ghost output = { λ unknown. Some (unknown_rate_text unknown) };

    fn fmt<W: fmt::Write>(&self, f: &mut fmt::Formatter<W>) -> fmt::Result {
        let number = self.number;
        write!(
            f,
            "the rate {number} is not one of 6, 9, 12, 18, 24, 36, 48 and 54"
        )
    }
}

impl Error for UnknownRate {}

impl TryFrom<u32> for Rate {
    type Error = UnknownRate;

    ghost try_from_gives = { λ number result. result ≡ rate_or_unknown number };

    fn try_from(number: u32) -> Result<Rate, UnknownRate> {
        match number {
            6 => Ok(Rate::R6),
            9 => Ok(Rate::R9),
            12 => Ok(Rate::R12),
            18 => Ok(Rate::R18),
            24 => Ok(Rate::R24),
            36 => Ok(Rate::R36),
            48 => Ok(Rate::R48),
            54 => Ok(Rate::R54),
            _ => Err(UnknownRate { number }),
        }
    }
}

impl Modulation {
    // N_BPSC, the coded bits of a carrier.
    pub fn n_bpsc(self) -> usize
        ensures { result ≡ n_bpsc self }
    {
        match self {
            Modulation::Bpsk => 1,
            Modulation::Qpsk => 2,
            Modulation::Qam16 => 4,
            Modulation::Qam64 => 6,
        }
    }
}

impl Rate {
    // The rate bits R1 to R4.
    pub fn bits(self) -> [bool; 4]
        ensures { result ≡ (row self).bits }
    {
        match self {
            Rate::R6 => [true, true, false, true],
            Rate::R9 => [true, true, true, true],
            Rate::R12 => [false, true, false, true],
            Rate::R18 => [false, true, true, true],
            Rate::R24 => [true, false, false, true],
            Rate::R36 => [true, false, true, true],
            Rate::R48 => [false, false, false, true],
            Rate::R54 => [false, false, true, true],
        }
    }

    pub fn modulation(self) -> Modulation
        ensures { result ≡ (row self).modulation }
    {
        match self {
            Rate::R6 | Rate::R9 => Modulation::Bpsk,
            Rate::R12 | Rate::R18 => Modulation::Qpsk,
            Rate::R24 | Rate::R36 => Modulation::Qam16,
            Rate::R48 | Rate::R54 => Modulation::Qam64,
        }
    }

    pub fn code_rate(self) -> CodeRate
        ensures { result ≡ (row self).code_rate }
    {
        match self {
            Rate::R6 | Rate::R12 | Rate::R24 => CodeRate::Half,
            Rate::R48 => CodeRate::TwoThirds,
            Rate::R9 | Rate::R18 | Rate::R36 | Rate::R54 => CodeRate::ThreeQuarters,
        }
    }

    pub fn mode(self) -> Mode
        ensures { result ≡ mode_of self }
    {
        Mode {
            modulation: self.modulation(),
            code_rate: self.code_rate(),
        }
    }

    // N_DBPS, the data bits of a symbol.
    pub fn n_dbps(self) -> usize
        ensures { result ≡ n_dbps (shape self) }
    {
        match self {
            Rate::R6 => 24,
            Rate::R9 => 36,
            Rate::R12 => 48,
            Rate::R18 => 72,
            Rate::R24 => 96,
            Rate::R36 => 144,
            Rate::R48 => 192,
            Rate::R54 => 216,
        }
    }
}
