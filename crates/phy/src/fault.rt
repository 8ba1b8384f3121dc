// Why a call was refused. The numbers are part of the interface.
ghost use Rattle.std.specs.Prelude.{◌≡◌, Some};
ghost use Rattle.phy.specs.declared.fault.SendFault.TheVariants as SE;
ghost use Rattle.phy.specs.declared.fault.ListenFault.TheVariants as LF;
ghost use Rattle.phy.specs.Fault.{send_fault_number, listen_fault_number, carrier_named};
ghost use Rattle.phy.specs.Texts.{send_fault_text, listen_fault_text};

use carriers::fault::{Axis, CarrierFault, SymbolFault};
use frame::rate::UnknownRate;
use std::error::Error;
use std::fmt;

// A refusal by the sender, with what was given in the place of a good value.
#[derive(Clone, Copy, Debug, PartialEq, Eq)]
pub enum SendFault {
    // not one of the eight rates
    Rate(u32),
    // the seed is outside 1 to 127
    Seed(u32),
    // the byte count is outside 1 to 4,095
    Length(usize),
    // the sending is over: all its symbols were written
    Over,
    // the slice for the carriers of a symbol is not 48 long
    Carriers(usize),
}

// Conversion and printing are written by hand: of derived ones no contract says what they give.
impl From<UnknownRate> for SendFault {
    ghost from_gives = { λ e r. r ≡ SE.Rate e.number };

    fn from(unknown: UnknownRate) -> SendFault {
        SendFault::Rate(unknown.number)
    }
}

impl SendFault {
    pub fn number(self) -> u8
        ensures { result ≡ send_fault_number self }
    {
        match self {
            SendFault::Carriers(_) => 1,
            SendFault::Seed(_) => 13,
            SendFault::Length(_) => 14,
            SendFault::Over => 15,
            SendFault::Rate(_) => 16,
        }
    }
}

impl fmt::Display for SendFault {
    ghost output = { λ fault. Some (send_fault_text fault) };

    fn fmt<W: fmt::Write>(&self, f: &mut fmt::Formatter<W>) -> fmt::Result {
        match self {
            SendFault::Rate(number) => {
                let unknown = UnknownRate { number: *number };
                write!(f, "{unknown}")
            }
            SendFault::Seed(seed) => write!(f, "the seed {seed} is outside 1 to 127"),
            SendFault::Length(count) => write!(f, "{count} bytes: a frame holds 1 to 4095 bytes"),
            SendFault::Over => write!(f, "the sending is over"),
            SendFault::Carriers(count) => {
                let fault = SymbolFault::Count(*count);
                write!(f, "{fault}")
            }
        }
    }
}

impl Error for SendFault {}

// A refusal by the receiver. A fault of a symbol's carriers, or of one of them, stands inside as the layer below raised it.
#[derive(Clone, Copy, Debug, PartialEq, Eq)]
pub enum ListenFault {
    Symbol(SymbolFault),
}

impl From<SymbolFault> for ListenFault {
    ghost from_gives = { λ e r. r ≡ LF.Symbol e };

    fn from(raised: SymbolFault) -> ListenFault {
        ListenFault::Symbol(raised)
    }
}

impl ListenFault {
    pub fn number(self) -> u8
        ensures { result ≡ listen_fault_number self }
    {
        match self {
            ListenFault::Symbol(fault) => fault.number(),
        }
    }

    // The carrier, from 0, and the axis that the fault names, if it names one.
    pub fn carrier(self) -> Option<(usize, Axis)>
        ensures { result ≡ carrier_named self }
    {
        match self {
            ListenFault::Symbol(SymbolFault::Count(_)) => None,
            ListenFault::Symbol(SymbolFault::Carrier(CarrierFault::NotANumber { place, axis })) => {
                Some((place, axis))
            }
        }
    }
}

impl fmt::Display for ListenFault {
    ghost output = { λ fault. Some (listen_fault_text fault) };

    fn fmt<W: fmt::Write>(&self, f: &mut fmt::Formatter<W>) -> fmt::Result {
        match self {
            ListenFault::Symbol(fault) => write!(f, "{fault}"),
        }
    }
}

impl Error for ListenFault {}
