// The command `send`: the bytes of a file into a recording.
use crate::failure::{Action, Failure};
use crate::message::{Message, each_symbol};
use crate::recording::Recorder;
use std::fs;

// What `send` is asked to do: to send the bytes of the file `input`, and to record the symbols in the file `output`.
#[derive(Clone, Copy)]
pub struct Order<'a> {
    pub rate: u32,
    pub seed: u32,
    pub input: &'a str,
    pub output: &'a str,
}

pub fn run(rt: &HostRuntime, order: Order) -> Result<(), Failure> {
    let bytes = read_bytes(rt, order.input)?;
    let message = Message {
        rate: order.rate,
        seed: order.seed,
        bytes: bytes.as_slice(),
    };
    let mut sending = message.sending()?;
    // only now, so that a refusal leaves no file behind
    let mut recorder = Recorder::create(rt, order.output)?;
    let total = message.announce(rt)?;
    each_symbol(&mut sending, total, |n, symbol| {
        recorder.write(rt, symbol)?;
        println!(rt; "symbol n={n}")?;
        Ok(())
    })?;
    println!(rt; "wrote symbols={total}")?;
    Ok(())
}

fn read_bytes(rt: &HostRuntime, path: &str) -> Result<Vec<u8>, Failure> {
    fs::read(rt, path).map_err(|error| Failure::at_file(rt.alloc(), Action::Read, path, error))
}
