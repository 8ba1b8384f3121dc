// Why a run ends with status 1, and what it says then.
use crate::arguments::Misuse;
use phy::fault::SendFault;
use std::alloc::{AllocError, Global};
use std::{fmt, io};
use thiserror::Error;

// What the program does with a file.
#[derive(Clone, Copy, Debug)]
pub enum Action {
    Read,
    Write,
}

impl fmt::Display for Action {
    fn fmt<W: fmt::Write>(&self, f: &mut fmt::Formatter<W>) -> fmt::Result {
        f.write_str(match self {
            Action::Read => "read",
            Action::Write => "write",
        })
    }
}

#[derive(Debug, Drop, Error)]
pub enum Failure {
    #[error("{0}")]
    Misuse(#[from] Misuse),
    // a file: what could not be done with it, its path, and why
    #[error("cannot {action} {path}: {error}")]
    File {
        action: Action,
        path: String,
        error: io::Error,
    },
    // the library refuses the sending
    #[error("{0}")]
    Refused(#[from] SendFault),
    // the program's own output, or its memory
    #[error("the run stopped: {0}")]
    System(#[from] io::Error),
}

// By hand, since `#[from]` would keep the error's own words, which are others.
impl From<AllocError> for Failure {
    fn from(error: AllocError) -> Failure {
        Failure::System(io::Error::from(error))
    }
}

impl Failure {
    pub fn at_file(heap: Global, action: Action, path: &str, error: io::Error) -> Failure {
        match String::from_str(heap, path) {
            Ok(path) => Failure::File {
                action,
                path,
                error,
            },
            Err(_) => Failure::System(error),
        }
    }

    // A refusal is an answer, so it goes to standard output; anything else goes to standard error.
    pub fn tell(&self, rt: &HostRuntime) -> io::Result<()> {
        match self {
            Failure::Refused(fault) => {
                println!(rt; "refused fault={}", fault.number())?;
                println!(rt; "{fault}")
            }
            other => eprintln!(rt; "{other}"),
        }
    }
}
