// What was heard of one coded bit.

// A value: above nought it favours one, below nought zero, and the larger its size the stronger. Or absent: nothing was
// heard, since the carrier was struck out or the puncturing stole the bit, so that it was never sent. That is a case of its
// own and never a value of nought: who reads a hole as nought may count it as a zero bit. So it is no `Option`, whose
// `unwrap_or_default` does just that, and which has an order with nothing below every value.
#[derive(Clone, Copy, Debug, PartialEq, Eq)]
pub enum SoftBit {
    Value(i16),
    Absent,
}
