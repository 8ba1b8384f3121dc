// Soft bits as whole numbers, in the form that the reference has them in too.
ghost use Rattle.std.specs.Prelude.{◌≡◌};
ghost use Rattle.sweeping.specs.Soft.{code_of};

use carriers::soft::SoftBit;

// An absent bit is 1,000, and a value is raised by 200, so that none is negative.
pub fn code(bit: SoftBit) -> u32
    ensures { result ≡ code_of bit }
{
    match bit {
        SoftBit::Value(value) => (i32::from(value) + 200).unsigned_abs(),
        SoftBit::Absent => 1000,
    }
}
