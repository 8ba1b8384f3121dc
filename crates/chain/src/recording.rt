// A recording: a text file with a line for each symbol.
use crate::failure::{Action, Failure};
use carriers::carrier::{Carrier, Point};
use std::fs::File;
use std::io::Write;
use std::{fmt, fs};

// The carriers of a symbol with single spaces between them: a format of its own, so it is written by hand.
#[derive(Clone, Copy)]
pub struct Line<'a>(pub &'a [Carrier]);

// A carrier is `I,Q`, or `x` where it is struck out.
fn write_carrier<W: fmt::Write>(f: &mut fmt::Formatter<W>, carrier: Carrier) -> fmt::Result {
    match carrier {
        Carrier::Heard(Point { i, q }) => write!(f, "{i},{q}"),
        Carrier::Struck => f.write_str("x"),
    }
}

impl fmt::Display for Line<'_> {
    fn fmt<W: fmt::Write>(&self, f: &mut fmt::Formatter<W>) -> fmt::Result {
        for (n, carrier) in self.0.iter().enumerate() {
            if n > 0 {
                f.write_str(" ")?;
            }
            write_carrier(f, *carrier)?;
        }
        Ok(())
    }
}

// A recording that is being written.
#[derive(Drop)]
pub struct Recorder<'a> {
    file: File,
    path: &'a str,
}

impl<'a> Recorder<'a> {
    pub fn create(rt: &HostRuntime, path: &'a str) -> Result<Recorder<'a>, Failure> {
        let file = fs::create(rt, path).map_err(|error| Failure::at_file(
            rt.alloc(),
            Action::Write,
            path,
            error,
        ))?;
        Ok(Recorder { file, path })
    }

    pub fn write(&mut self, rt: &HostRuntime, symbol: &[Carrier]) -> Result<(), Failure> {
        let line = format!(in rt.alloc(); "{}\n", Line(symbol))?;
        self.file.write_all(line.as_bytes()).map_err(|error| Failure::at_file(
            rt.alloc(),
            Action::Write,
            self.path,
            error,
        ))
    }
}

#[cfg(test)]
mod tests {
    use super::*;
    use std::test::Fail;

    #[test]
    fn a_line_has_every_kind_of_carrier(rt: HostRuntime) -> Result<(), Fail> {
        let carriers = [
            Carrier::Heard(Point { i: -1.0, q: 0.0 }),
            Carrier::Struck,
            Carrier::Heard(Point { i: -0.5, q: 0.25 }),
            Carrier::Heard(Point {
                i: f32::INFINITY,
                q: f32::NEG_INFINITY,
            }),
            Carrier::Heard(Point {
                i: f32::NAN,
                q: 7.0,
            }),
        ];
        let line = format!(in rt.alloc(); "{}", Line(&carriers))?;
        assert_eq!(rt; line.as_str(), "-1,0 x -0.5,0.25 inf,-inf NaN,7");
        Ok(())
    }
}
