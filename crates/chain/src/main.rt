// The chain as a program: sends a built-in example, or sends a file into a recording.
#![tactic(auto)]

use arguments::Command;
use failure::Failure;
use std::process::ExitCode;

mod arguments;
mod example;
mod failure;
mod message;
mod recording;
mod send;

fn run(rt: &HostRuntime) -> Result<(), Failure> {
    let words = arguments::read_words(rt)?;
    match arguments::read_command(words.as_slice())? {
        Command::Example => example::run(rt),
        Command::Send(order) => send::run(rt, order),
    }
}

fn main(rt: HostRuntime) -> ExitCode {
    let Err(failure) = run(&rt) else {
        return ExitCode::SUCCESS;
    };
    // nobody is left to tell where this cannot be printed either
    let _ = failure.tell(&rt);
    ExitCode::FAILURE
}
