// A message that is to be sent, from its bytes to its symbols.
use crate::failure::Failure;
use carriers::carrier::Carrier;
use frame::header::Header;
use frame::rate::Rate;
use phy::fault::SendFault;
use phy::sending::Sending;
use std::fmt;

// Bits as a row of 0 and 1. (Printed as one value: each call of `print!` is a write of its own.)
#[derive(Clone, Copy)]
struct Bits<'a>(&'a [bool]);

impl fmt::Display for Bits<'_> {
    fn fmt<W: fmt::Write>(&self, f: &mut fmt::Formatter<W>) -> fmt::Result {
        for bit in self.0 {
            f.write_str(if *bit { "1" } else { "0" })?;
        }
        Ok(())
    }
}

// What a sending is made from.
#[derive(Clone, Copy)]
pub struct Message<'a> {
    pub rate: u32,
    pub seed: u32,
    pub bytes: &'a [u8],
}

impl<'a> Message<'a> {
    pub fn sending(self) -> Result<Sending<'a>, SendFault> {
        Sending::new(self.rate, self.seed, self.bytes)
    }

    // Where a sending was made, neither refusal below can come.
    fn header(self) -> Result<Header, SendFault> {
        let rate = Rate::try_from(self.rate)?;
        let count = self.bytes.len();
        let length = u16::try_from(count).map_err(|_| SendFault::Length(count))?;
        Ok(Header { rate, length })
    }

    // Prints how the message will be sent, and returns the number of symbols, the header among them.
    pub fn announce(self, rt: &HostRuntime) -> Result<usize, Failure> {
        let header = self.header()?;
        let symbols = header.symbol_count();
        println!(rt;
            "sending rate={} seed={} length={} symbols={symbols} pad={}",
            self.rate,
            self.seed,
            header.length,
            header.pad_count()
        )?;
        println!(rt; "header bits={}", Bits(&header.bits()))?;
        Ok(symbols.saturating_add(1))
    }
}

// Writes so many symbols of a sending, and does with each, by its number, what is asked.
pub fn each_symbol<F>(sending: &mut Sending, total: usize, mut with: F) -> Result<(), Failure>
where
    F: FnMut(usize, &[Carrier]) -> Result<(), Failure>,
    requires { F.IsAlwaysCallable with }
{
    for n in 0..total {
        let mut symbol = [Carrier::Struck; 48];
        sending.next(&mut symbol)?;
        with(n, &symbol)?;
    }
    Ok(())
}
