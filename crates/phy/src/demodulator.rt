// One symbol back: carriers through the demapper, the deinterleaver and the depuncturing.
ghost use Rattle.std.specs.Prelude.{◌≡◌, ◌*◌, length};
ghost use Rattle.frame.specs.Rate.{n_bpsc, shaped, shape};
ghost use Rattle.phy.specs.Demodulation.{demodulated, Ready, Demodulates};

use crate::fault::ListenFault;
use carriers::carrier::Carrier;
use carriers::check::{CARRIERS, check_symbol};
use carriers::demapper::demap_symbol;
use carriers::soft::SoftBit;
use coding::depuncturer::depuncture;
use coding::interleaver::deinterleave_symbol;
use frame::rate::{Mode, Modulation, Rate};

// Demodulates over `placed` and `coded`, which are as long as the symbol's coded bits. (Within the function below, where the
// compiler does not know so well that the two are apart, a symbol at 48 Mbit/s takes an eighth longer.)
fn demodulate_over(
    mode: Mode,
    carriers: &[Carrier; CARRIERS],
    placed: &mut [SoftBit],
    coded: &mut [SoftBit],
    pairs: &mut [(SoftBit, SoftBit)],
)
    requires ready { Ready mode carriers.now (length pairs.old) }
    requires placed_len { length placed.old ≡ 48 * n_bpsc mode.modulation }
    requires coded_len { length coded.old ≡ 48 * n_bpsc mode.modulation }
    ensures { pairs.new ≡ demodulated (shaped mode) carriers.now }
{
    demap_symbol(mode.modulation, carriers, placed);
    deinterleave_symbol(mode.modulation, placed, coded);
    depuncture(coded, mode.code_rate, SoftBit::Absent, pairs)
}

// Demodulates a symbol of N coded bits. The memory is just as long as they are: what is not there need not be cleared.
fn demodulate_coded<const N: usize>(
    mode: Mode,
    carriers: &[Carrier; CARRIERS],
    pairs: &mut [(SoftBit, SoftBit)],
)
    requires n_value { N ≡ 48 * n_bpsc mode.modulation }
    requires ready { Ready mode carriers.now (length pairs.old) }
    ensures { pairs.new ≡ demodulated (shaped mode) carriers.now }
{
    let mut placed = [SoftBit::Absent; N];
    let mut coded = [SoftBit::Absent; N];
    demodulate_over(mode, carriers, &mut placed, &mut coded, pairs)
}

// Writes what 48 carriers say of each data bit's pair of coded bits. Each modulation names the length of its memory, since none
// can be computed from it in a type.
fn demodulate_symbol(mode: Mode, carriers: &[Carrier; CARRIERS], pairs: &mut [(SoftBit, SoftBit)])
    requires { Ready mode carriers.now (length pairs.old) }
    ensures { pairs.new ≡ demodulated (shaped mode) carriers.now }
{
    match mode.modulation {
        Modulation::Bpsk => demodulate_coded::<48>(mode, carriers, pairs),
        Modulation::Qpsk => demodulate_coded::<96>(mode, carriers, pairs),
        Modulation::Qam16 => demodulate_coded::<192>(mode, carriers, pairs),
        Modulation::Qam64 => demodulate_coded::<288>(mode, carriers, pairs),
    }
}

// Writes what the carriers of a symbol say of its coded bits, A and B of each data bit, to the first N_DBPS places. No symbol
// has more than 216 data bits.
pub fn demodulate(
    rate: Rate,
    carriers: &[Carrier],
    out: &mut [(SoftBit, SoftBit); 216],
) -> Result<(), ListenFault>
    ensures { Demodulates (shape rate) carriers.now result out.old out.new }
{
    let symbol = check_symbol(carriers)?;
    demodulate_symbol(rate.mode(), symbol, &mut out[0..rate.n_dbps()]);
    Ok(())
}
