// What was received of a symbol's coded bits, back in pairs: one pair for each data bit, the stolen ones put back as holes.
// What was sent, the hole and the memory are what each function is about, and are not made one.
ghost use Rattle.std.specs.Prelude.{◌≡◌, ◌+◌, ◌%◌, ◌<◌, true, cond, length, slice_index_or};
ghost use Rattle.frame.specs.Bits.{bit_of};
ghost use Rattle.coding.specs.Puncturing.{pattern, sent_count};
ghost use Rattle.coding.specs.Depuncturing.{depunctured, DepuncturingUndoes, Restored};

use crate::puncturing::{Half, Pattern, ThreeQuarters, TwoThirds};
use frame::rate::CodeRate;

// Everything that was sent comes back, and all else as a hole, whatever the pairs hold: the coder's outputs, or what was heard
// of them. It computes nothing: its contract is the law.
pub fn puncturing_is_undone<T>()
    ensures { DepuncturingUndoes T }
{}

// The next of `sent` if one is sent here, and else a hole; and the place after it. (An iterator would say no more than the
// place: that it ends just where the pattern does is what has to be known either way. Nor would an `Option` for the mark: it is
// the pattern's, and asks for no value.)
fn taken<T: Copy>(sent: &[T], at: usize, is_sent: bool, hole: T) -> (T, usize)
    requires { is_sent ≡ true → at < length sent.now }
    ensures bit { result.0 ≡ cond is_sent (slice_index_or sent.now at hole) hole }
    ensures after { result.1 ≡ at + bit_of is_sent }
{
    if is_sent {
        (sent[at], at + 1)
    } else {
        (hole, at)
    }
}

// Restores one period of the pattern from what was sent of it.
fn depuncture_period<T: Copy, P: Pattern>(sent: &[T], hole: T, out: &mut [(T, T)])
    requires sent_len { length sent.now ≡ P.SENT }
    requires out_len { length out.old ≡ P.PAIRS }
    ensures { Restored hole P.code_rate sent.now out.new P.PAIRS }
{
    let mut at = 0;
    for (t, pair) in out.iter_mut().enumerate() {
        let (a_sent, b_sent) = P::marks(t);
        let (a, after_a) = taken(sent, at, a_sent, hole);
        let (b, after_b) = taken(sent, after_a, b_sent, hole);
        *pair = (a, b);
        at = after_b;
    }
}

// Restores whole periods of a pattern.
fn depuncture_with<T: Copy, P: Pattern>(sent: &[T], hole: T, out: &mut [(T, T)])
    requires whole_periods { length out.old % P.PAIRS ≡ 0 }
    requires sent_len { length sent.now ≡ sent_count P.code_rate (length out.old) }
    ensures { out.new ≡ depunctured hole P.code_rate (length out.old) sent.now }
{
    let (in_pairs, in_sent) = (P::PAIRS, P::SENT);
    // by the period's number, and not by `chunks_exact_mut`, after which nothing is known of a slice's elements
    for k in 0..out.len() / in_pairs {
        let period = &sent[k * in_sent..k * in_sent + in_sent];
        let pairs = &mut out[k * in_pairs..k * in_pairs + in_pairs];
        depuncture_period::<T, P>(period, hole, pairs);
    }
}

// Restores the pairs, whole periods of the pattern, of which `sent` was sent: a stolen bit is put back as the hole.
pub fn depuncture<T: Copy>(sent: &[T], code_rate: CodeRate, hole: T, out: &mut [(T, T)])
    requires whole_periods { length out.old % length (pattern code_rate) ≡ 0 }
    requires sent_len { length sent.now ≡ sent_count code_rate (length out.old) }
    ensures { out.new ≡ depunctured hole code_rate (length out.old) sent.now }
{
    // a coding rate's pattern is a type, and only the names of types can be given
    match code_rate {
        CodeRate::Half => depuncture_with::<T, Half>(sent, hole, out),
        CodeRate::TwoThirds => depuncture_with::<T, TwoThirds>(sent, hole, out),
        CodeRate::ThreeQuarters => depuncture_with::<T, ThreeQuarters>(sent, hole, out),
    }
}
