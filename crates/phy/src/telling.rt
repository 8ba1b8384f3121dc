// Laws above the symbols' definitions. Their functions compute nothing: the contract is the law.
ghost use Rattle.phy.specs.Telling.{SymbolsTellTheFrame};
ghost use Rattle.phy.specs.Hearing.{SentSymbolsAreHeard};

// Two frames with the same symbols have the same rate, seed and bytes, so nothing of a frame is lost on its way to the
// carriers.
pub fn symbols_tell_the_frame()
    ensures { SymbolsTellTheFrame }
{}

// Whatever symbol of whatever frame is sent, and whichever of its carriers are struck out: demodulated, each output of the
// coder is the bit that was sent, or absent, and absent only where it was never sent or its own carrier was struck out.
pub fn sent_symbols_are_heard()
    ensures { SentSymbolsAreHeard }
{}
