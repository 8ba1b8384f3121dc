// The built-in example: the message that Annex G of the standard sends at 36 Mbit/s.
use crate::failure::Failure;
use crate::message::{Message, each_symbol};
use crate::recording::Line;
use std::fmt;
use worked::annex_g::{MESSAGE, RATE, SEED};

// Bytes as lower-case hex. (Printed as one value: each call of `print!` is a write of its own.)
#[derive(Clone, Copy)]
struct Hex<'a>(&'a [u8]);

impl fmt::Display for Hex<'_> {
    fn fmt<W: fmt::Write>(&self, f: &mut fmt::Formatter<W>) -> fmt::Result {
        for byte in self.0 {
            write!(f, "{byte:02x}")?;
        }
        Ok(())
    }
}

pub fn run(rt: &HostRuntime) -> Result<(), Failure> {
    let message = Message {
        rate: RATE,
        seed: SEED,
        bytes: MESSAGE,
    };
    println!(rt; "example: the message of Annex G, {} bytes", MESSAGE.len())?;
    println!(rt; "bytes {}", Hex(MESSAGE))?;
    let mut sending = message.sending()?;
    let total = message.announce(rt)?;
    each_symbol(&mut sending, total, |n, symbol| {
        println!(rt; "symbol n={n}")?;
        println!(rt; "{}", Line(symbol))?;
        Ok(())
    })?;
    println!(rt; "sent symbols={total}")?;
    Ok(())
}
