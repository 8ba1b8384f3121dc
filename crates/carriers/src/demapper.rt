// The demapper: the carriers of a symbol to what they say of its bits, place by place.
ghost use Rattle.std.specs.Prelude.{◌≡◌, ◌*◌, ◌≤◌, false, map, length, replicate, if◌then◌else◌, None, unsigned_abs};
ghost use Rattle.std.specs.Float.Ieee as Ieee;
ghost use Rattle.frame.specs.Rate.{n_bpsc};
ghost use Rattle.carriers.specs.declared.soft.SoftBit.TheVariants.{Value, Absent};
ghost use Rattle.std.specs.Float.{float_zero};
ghost use Rattle.carriers.specs.Fault.{bad_axis, carrier_fault};
ghost use Rattle.carriers.specs.Demapper.{AtMost, whole_part, quantised, values, point_values, soft_bits, demapped};

use crate::carrier::{Carrier, Point};
use crate::soft::SoftBit;
use frame::rate::Modulation;

// The size of a number. -0.0 stays as it is, since nothing below minds: with the library's `abs`, which makes 0.0 of it, a BPSK
// symbol takes an eighth longer.
fn magnitude(x: f32) -> f32
    ensures { result ≡ (if Ieee.lt x float_zero then Ieee.neg x else x) }
{
    if x < 0.0 { -x } else { x }
}

// The whole part of a number that is not below zero. The library's cast goes by the bits of an `f64`: with it a symbol takes
// twice as long.
fn cut_size(size: f32) -> i16
    requires small { AtMost 128 size }
    requires above { Ieee.lt size float_zero ≡ false }
    ensures { result ≡ whole_part size }
{
    // From 2^23 on an `f32` has no digits for a fraction, so the sum is rounded to a whole number, the nearest.
    let nearest = (size + 8388608.0) - 8388608.0;
    let whole = nearest as i16;
    // The nearest can be the one above.
    if size < nearest { whole - 1 } else { whole }
}

// The whole part of a number, the fraction dropped toward zero. The size comes first and the sign last: the sign of a heard
// coordinate is as good as random, and a branch on it would be guessed wrong half of the time.
fn whole_part(x: f32) -> i16
    requires { AtMost 128 x }
    ensures { result ≡ whole_part x }
{
    let whole = cut_size(magnitude(x));
    if x < 0.0 { -whole } else { whole }
}

// A heard coordinate in whole sixteenths. Limited to 8 first, it is exact in `f32` after the product too, so that nothing
// but the fraction is lost.
pub fn quantise(coordinate: f32) -> i16
    requires { Ieee.is_nan coordinate ≡ false }
    ensures value { result ≡ quantised coordinate }
    ensures bound { unsigned_abs result ≤ 128 }
{
    let limited = coordinate.clamp(-8.0, 8.0);
    whole_part(limited * 16.0)
}

// The values of one coordinate's bits, which are what a modulation is. (Copied in from arrays by `copy_from_slice`, they take
// up to twice as long.)
fn demap_axis(modulation: Modulation, r: i16, out: &mut [SoftBit])
    requires r_bound { unsigned_abs r ≤ 128 }
    requires out_len { length out.old ≡ length (values modulation r) }
    ensures { out.new ≡ map Value (values modulation r) }
{
    out[0] = SoftBit::Value(r);
    match modulation {
        Modulation::Bpsk | Modulation::Qpsk => {}
        Modulation::Qam16 => out[1] = SoftBit::Value(32 - r.abs()),
        Modulation::Qam64 => {
            let second = 64 - r.abs();
            out[1] = SoftBit::Value(second);
            out[2] = SoftBit::Value(32 - second.abs());
        }
    }
}

// The values of a point's bits: those on I first.
fn demap_point(modulation: Modulation, point: Point, out: &mut [SoftBit])
    requires i_number { Ieee.is_nan point.i ≡ false }
    requires q_number { Ieee.is_nan point.q ≡ false }
    requires out_len { length out.old ≡ n_bpsc modulation }
    ensures { out.new ≡ map Value (point_values modulation point) }
{
    match modulation {
        Modulation::Bpsk => demap_axis(modulation, quantise(point.i), out),
        _ => {
            let half = out.len() / 2;
            let (first, second) = out.split_at_mut(half);
            demap_axis(modulation, quantise(point.i), first);
            demap_axis(modulation, quantise(point.q), second);
        }
    }
}

// Nothing was heard of any of these bits. (With the library's `fill`, a QPSK symbol takes a fifth longer.)
fn erase(out: &mut [SoftBit])
    ensures { out.new ≡ replicate (length out.old) Absent }
{
    for bit in out.iter_mut() {
        *bit = SoftBit::Absent;
    }
}

// What a carrier says of its bits.
fn demap_carrier(modulation: Modulation, carrier: Carrier, out: &mut [SoftBit])
    requires is_number { bad_axis carrier ≡ None }
    requires out_len { length out.old ≡ n_bpsc modulation }
    ensures { out.new ≡ soft_bits modulation carrier }
{
    match carrier {
        Carrier::Heard(point) => demap_point(modulation, point, out),
        Carrier::Struck => erase(out),
    }
}

// What carriers of BITS bits say of them. (That they are numbers each function asks: a type that says so would have to hold the
// carriers, and the lent slice does. Over a `zip` with `chunks_exact_mut` a proof knows nothing of what was written.)
fn demap_carriers<const BITS: usize>(
    modulation: Modulation,
    carriers: &[Carrier],
    out: &mut [SoftBit],
)
    requires bits_value { BITS ≡ n_bpsc modulation }
    requires are_numbers { carrier_fault carriers.now ≡ None }
    requires out_len { length out.old ≡ length carriers.now * n_bpsc modulation }
    ensures { out.new ≡ demapped modulation carriers.now }
{
    for (n, carrier) in carriers.iter().enumerate() {
        let at = BITS * n;
        demap_carrier(modulation, *carrier, &mut out[at..at + BITS]);
    }
}

// What the carriers of a symbol say of its bits: carrier n of those from place n N_BPSC on. Each modulation has a loop of its
// own, so that no carrier asks for it again.
pub fn demap_symbol(modulation: Modulation, carriers: &[Carrier], out: &mut [SoftBit])
    requires are_numbers { carrier_fault carriers.now ≡ None }
    requires out_len { length out.old ≡ length carriers.now * n_bpsc modulation }
    ensures { out.new ≡ demapped modulation carriers.now }
{
    match modulation {
        Modulation::Bpsk => demap_carriers::<1>(modulation, carriers, out),
        Modulation::Qpsk => demap_carriers::<2>(modulation, carriers, out),
        Modulation::Qam16 => demap_carriers::<4>(modulation, carriers, out),
        Modulation::Qam64 => demap_carriers::<6>(modulation, carriers, out),
    }
}
