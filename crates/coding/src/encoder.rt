// A row of bits through the coder, punctured: the same for the header and for the data. Bits, state and memory are what each
// function is about, and are not made one.
ghost use Rattle.std.specs.Prelude.{◌≡◌, ◌%◌, length};
ghost use Rattle.coding.specs.Puncturing.{pattern, sent_count};
ghost use Rattle.coding.specs.Encoding.{Encoded};

use crate::coder::State;
use crate::puncturing::{Half, Pattern, ThreeQuarters, TwoThirds, put};
use frame::rate::CodeRate;

// Codes one period of the pattern from the state before it, and returns the state after it.
fn encode_period<P: Pattern>(bits: &[bool], state: State, out: &mut [bool]) -> State
    requires bits_len { length bits.now ≡ P.PAIRS }
    requires out_len { length out.old ≡ P.SENT }
    ensures { Encoded bits.now P.code_rate state result out.new }
{
    let mut held = state;
    let mut at = 0;
    for (t, bit) in bits.iter().enumerate() {
        let (a, b) = held.outputs(*bit);
        let (send_a, send_b) = P::marks(t);
        at = put(out, at, send_a, a);
        at = put(out, at, send_b, b);
        held = held.next(*bit);
    }
    held
}

// Codes whole periods of a pattern.
fn encode_with<P: Pattern>(bits: &[bool], state: State, out: &mut [bool]) -> State
    requires whole_periods { length bits.now % P.PAIRS ≡ 0 }
    requires out_len { length out.old ≡ sent_count P.code_rate (length bits.now) }
    ensures { Encoded bits.now P.code_rate state result out.new }
{
    let (pairs, sent) = (P::PAIRS, P::SENT);
    let mut held = state;
    // by the period's number, and not by `chunks_exact_mut`, after which nothing is known of a slice's elements
    for k in 0..bits.len() / pairs {
        let period = &bits[k * pairs..k * pairs + pairs];
        held = encode_period::<P>(period, held, &mut out[k * sent..k * sent + sent]);
    }
    held
}

// Codes `bits`, whole periods of the pattern, from the state before them into `out`, and returns the state after them.
pub fn encode(bits: &[bool], code_rate: CodeRate, state: State, out: &mut [bool]) -> State
    requires whole_periods { length bits.now % length (pattern code_rate) ≡ 0 }
    requires out_len { length out.old ≡ sent_count code_rate (length bits.now) }
    ensures { Encoded bits.now code_rate state result out.new }
{
    // a coding rate's pattern is a type, and only the names of types can be given
    match code_rate {
        CodeRate::Half => encode_with::<Half>(bits, state, out),
        CodeRate::TwoThirds => encode_with::<TwoThirds>(bits, state, out),
        CodeRate::ThreeQuarters => encode_with::<ThreeQuarters>(bits, state, out),
    }
}
