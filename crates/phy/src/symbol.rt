// One symbol: bits through the coder, the puncturing, the interleaver and the mapper.
ghost use Rattle.std.specs.Prelude.{length};
ghost use Rattle.phy.specs.Writing.{Fills, Written};

use carriers::carrier::Carrier;
use carriers::check::CARRIERS;
use carriers::mapper::map_symbol;
use coding::coder::State;
use coding::encoder::encode;
use coding::interleaver::interleave_symbol;
use frame::rate::Mode;

// Writes the symbol of these data bits, and returns the coder's state after them.
pub(crate) fn write_symbol(
    mode: Mode,
    bits: &[bool],
    state: State,
    out: &mut [Carrier; CARRIERS],
) -> State
    requires { Fills mode (length bits.now) }
    ensures { Written mode bits.now state result out.new }
{
    let n_cbps = 48 * mode.modulation.n_bpsc();
    // Each is cleared just before it is written to: cleared together they take a fifth longer at 6 Mbit/s. The longest symbol's
    // length serves all, since none can be computed from a mode in a type.
    let mut coded = [false; 288];
    let coded = &mut coded[..n_cbps];
    let after = encode(bits, mode.code_rate, state, coded);
    let mut placed = [false; 288];
    let placed = &mut placed[..n_cbps];
    interleave_symbol(mode.modulation, coded, placed);
    map_symbol(mode.modulation, placed, out);
    after
}
