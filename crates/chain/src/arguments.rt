// The words of the command line.
use crate::failure::Failure;
use crate::send::Order;
use std::{env, io};
use thiserror::Error;

// What the program is asked to do.
#[derive(Clone, Copy)]
pub enum Command<'a> {
    Example,
    Send(Order<'a>),
}

// Words that ask for nothing the program does.
#[derive(Debug, Drop, Error)]
pub enum Misuse {
    // words that are no text
    #[error("the command line cannot be read: {0}")]
    Unreadable(io::Error),
    #[error("'{0}' is not a command: give no word, or send RATE SEED IN OUT")]
    UnknownCommand(String),
    // so many words after `send`
    #[error("send takes four words, RATE SEED IN OUT, and {0} were given")]
    SendCount(usize),
    // the word in the place of a number
    #[error("RATE is a whole number in digits, and not '{0}'")]
    Rate(String),
    #[error("SEED is a whole number in digits, and not '{0}'")]
    Seed(String),
}

// The words after the program's name.
pub fn read_words(rt: &HostRuntime) -> Result<Vec<String>, Failure> {
    let words = env::args(rt).map_err(Misuse::Unreadable)?;
    Ok(words.skip(1).collect(rt.alloc())?)
}

// The command that the words give.
pub fn read_command(words: &[String]) -> Result<Command<'_>, Failure> {
    match words {
        [] => Ok(Command::Example),
        [name, rest @ ..] if name.as_str() == "send" => Ok(Command::Send(read_order(rest)?)),
        [unknown, ..] => Err(Misuse::UnknownCommand(unknown.clone()?).into()),
    }
}

fn read_order(words: &[String]) -> Result<Order<'_>, Failure> {
    let [rate_word, seed_word, input, output] = words else {
        return Err(Misuse::SendCount(words.len()).into());
    };
    Ok(Order {
        rate: number(rate_word, Misuse::Rate)?,
        seed: number(seed_word, Misuse::Seed)?,
        input: input.as_str(),
        output: output.as_str(),
    })
}

// The number that a word stands for, or the misuse that it is.
fn number<F: FnOnce(String) -> Misuse>(word: &String, misuse: F) -> Result<u32, Failure>
    requires { F.IsAlwaysCallable misuse }
{
    match parse_number(word.as_str()) {
        Some(number) => Ok(number),
        None => Err(misuse(word.clone()?).into()),
    }
}

// A number too large for a u32 is read as the largest, which is as far outside what a sending takes. (`parse` alone would take
// `+6`.)
fn parse_number(word: &str) -> Option<u32> {
    if word.is_empty() || !word.bytes().all(|byte| byte.is_ascii_digit()) {
        return None;
    }
    Some(word.parse::<u32>().unwrap_or(u32::MAX))
}

#[cfg(test)]
mod tests {
    use super::*;

    #[test]
    fn numbers_are_digits_only(rt: HostRuntime) {
        assert_eq!(rt; parse_number("036"), Some(36));
        assert_eq!(rt; parse_number("99999999999"), Some(u32::MAX));
        assert_eq!(rt; parse_number("-1"), None);
        assert_eq!(rt; parse_number("+6"), None);
        assert_eq!(rt; parse_number(""), None);
    }
}
