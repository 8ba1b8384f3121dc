// Puncturing: which of the coder's outputs are sent.
ghost use Rattle.std.specs.Prelude.{◌≡◌, ℕ, ◌+◌, ◌<◌, ◌≤◌, true, length};
ghost use Rattle.frame.specs.declared.rate.CodeRate.{CodeRate};
ghost use Rattle.frame.specs.declared.rate.CodeRate.TheVariants as C;
ghost use Rattle.coding.specs.Puncturing.{sent_of, Period};
ghost use Rattle.coding.specs.Encoding.{Put};
ghost use Rattle.coding.specs.Periods.{half, two_thirds, three_quarters};

// The pattern of a coding rate: how many pairs a period has, how many of their outputs are sent, and which.
pub(crate) trait Pattern {
    const PAIRS: usize;

    const SENT: usize;

    ghost code_rate: { CodeRate };

    ghost PAIRS: { ℕ };

    ghost SENT: { ℕ };

    // Of pair `t` of a period, whether A is sent, and whether B is.
    fn marks(t: usize) -> (bool, bool)
        requires { t < PAIRS }
        ensures { result ≡ sent_of code_rate t };

    ghost period: { Period code_rate PAIRS SENT };
}

pub(crate) struct Half;

impl Pattern for Half {
    const PAIRS: usize = 1;

    const SENT: usize = 2;

    ghost code_rate = { C.Half };

    ghost PAIRS = { 1 };

    ghost SENT = { 2 };

    ghost period = { half };

    fn marks(_t: usize) -> (bool, bool) {
        (true, true)
    }
}

pub(crate) struct TwoThirds;

impl Pattern for TwoThirds {
    const PAIRS: usize = 2;

    const SENT: usize = 3;

    ghost code_rate = { C.TwoThirds };

    ghost PAIRS = { 2 };

    ghost SENT = { 3 };

    ghost period = { two_thirds };

    fn marks(t: usize) -> (bool, bool) {
        (true, t != 1)
    }
}

pub(crate) struct ThreeQuarters;

impl Pattern for ThreeQuarters {
    const PAIRS: usize = 3;

    const SENT: usize = 4;

    ghost code_rate = { C.ThreeQuarters };

    ghost PAIRS = { 3 };

    ghost SENT = { 4 };

    ghost period = { three_quarters };

    fn marks(t: usize) -> (bool, bool) {
        (t != 2, t != 1)
    }
}

// Writes the bit at `at` if it is sent, and says where the next one goes. (Not by `iter_mut`'s `next`: nothing is known of the
// elements after that. The mark is the pattern's and the bit the coder's; as an `Option` they would be made one to be taken
// apart here.)
pub(crate) fn put(out: &mut [bool], at: usize, send: bool, bit: bool) -> usize
    requires fits_if_sent { send ≡ true → at < length out.old }
    requires within { at ≤ length out.old }
    ensures { Put out.old at send bit result out.new }
{
    if send {
        out[at] = bit;
        at + 1
    } else {
        at
    }
}
