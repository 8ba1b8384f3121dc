// Why the carriers of a symbol were refused. The numbers are part of the interface.
ghost use Rattle.std.specs.Prelude.{◌≡◌, Some};
ghost use Rattle.carriers.specs.declared.fault.SymbolFault.TheVariants as SF;
ghost use Rattle.carriers.specs.Fault.{carrier_fault_number, symbol_fault_number};
ghost use Rattle.carriers.specs.Texts.{axis_text, carrier_fault_text, symbol_fault_text};

use std::error::Error;
use std::fmt;

// The two coordinates of a point.
#[derive(Clone, Copy, Debug, PartialEq, Eq)]
pub enum Axis {
    I,
    Q,
}

// A fault of one carrier, by its place in the symbol, from 0.
#[derive(Clone, Copy, Debug, PartialEq, Eq)]
pub enum CarrierFault {
    // a coordinate is not a number, whether the modulation uses that axis or not
    NotANumber { place: usize, axis: Axis },
}

// A fault of a symbol's carriers.
#[derive(Clone, Copy, Debug, PartialEq, Eq)]
pub enum SymbolFault {
    // so many carriers, and not 48
    Count(usize),
    // a fault of one of them
    Carrier(CarrierFault),
}

// Printing and conversion are written by hand: of derived ones no contract says what they give.
impl fmt::Display for Axis {
    ghost output = { λ axis. Some (axis_text axis) };

    fn fmt<W: fmt::Write>(&self, f: &mut fmt::Formatter<W>) -> fmt::Result {
        match self {
            Axis::I => write!(f, "I"),
            Axis::Q => write!(f, "Q"),
        }
    }
}

impl fmt::Display for CarrierFault {
    ghost output = { λ fault. Some (carrier_fault_text fault) };

    fn fmt<W: fmt::Write>(&self, f: &mut fmt::Formatter<W>) -> fmt::Result {
        match self {
            CarrierFault::NotANumber { place, axis } => {
                write!(f, "{axis} of carrier {place} is not a number")
            }
        }
    }
}

impl fmt::Display for SymbolFault {
    ghost output = { λ fault. Some (symbol_fault_text fault) };

    fn fmt<W: fmt::Write>(&self, f: &mut fmt::Formatter<W>) -> fmt::Result {
        match self {
            SymbolFault::Count(count) => write!(f, "{count} carriers: a symbol has 48"),
            SymbolFault::Carrier(fault) => write!(f, "{fault}"),
        }
    }
}

impl Error for CarrierFault {}

impl Error for SymbolFault {}

impl From<CarrierFault> for SymbolFault {
    ghost from_gives = { λ e r. r ≡ SF.Carrier e };

    fn from(raised: CarrierFault) -> SymbolFault {
        SymbolFault::Carrier(raised)
    }
}

impl CarrierFault {
    pub fn number(self) -> u8
        ensures { result ≡ carrier_fault_number self }
    {
        match self {
            CarrierFault::NotANumber { .. } => 7,
        }
    }
}

impl SymbolFault {
    pub fn number(self) -> u8
        ensures { result ≡ symbol_fault_number self }
    {
        match self {
            SymbolFault::Count(_) => 1,
            SymbolFault::Carrier(fault) => fault.number(),
        }
    }
}
