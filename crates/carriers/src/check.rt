// Whether the carriers of a symbol can be demodulated.
ghost use Rattle.std.specs.Prelude.{◌≡◌, IfOk};
ghost use Rattle.std.specs.Result.{result_err};
ghost use Rattle.carriers.specs.Fault.{bad_axis, checked, carrier_fault, FirstNamed, symbol_fault};

use crate::carrier::Carrier;
use crate::fault::{Axis, CarrierFault, SymbolFault};

// The carriers of a symbol.
pub const CARRIERS: usize = 48;

// The axis of a heard carrier on which its coordinate is not a number, I before Q.
fn bad_axis_of(carrier: Carrier) -> Option<Axis>
    ensures { result ≡ bad_axis carrier }
{
    match carrier {
        Carrier::Heard(point) if point.i.is_nan() => Some(Axis::I),
        Carrier::Heard(point) if point.q.is_nan() => Some(Axis::Q),
        _ => None,
    }
}

// Refuses, naming the first carrier with a coordinate that is not a number. The search goes by the place: a fixed form of the
// project.
#[tactic(auto, using(crate::proofs::FirstBad::first_named))]
pub fn check_numbers(carriers: &[Carrier]) -> Result<(), CarrierFault>
    ensures answer { result ≡ checked (carrier_fault carriers.now) }
    ensures first { FirstNamed carriers.now (carrier_fault carriers.now) }
{
    for place in 0..carriers.len() {
        if let Some(axis) = bad_axis_of(carriers[place]) {
            return Err(CarrierFault::NotANumber { place, axis });
        }
    }
    Ok(())
}

// The carriers as those of a symbol. Refuses carriers that are not 48, and then names the first with a coordinate that is not a
// number.
pub fn check_symbol(carriers: &[Carrier]) -> Result<&[Carrier; CARRIERS], SymbolFault>
    ensures answer { result_err result ≡ symbol_fault carriers.now }
    ensures same { IfOk result (λ symbol. symbol.now ≡ carriers.now) }
{
    let Some(symbol) = carriers.as_array() else {
        return Err(SymbolFault::Count(carriers.len()));
    };
    check_numbers(symbol)?;
    Ok(symbol)
}
