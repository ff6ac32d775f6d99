// The line of a case.
use crate::reading::Said;
use lent::read::{Read, Unread};
use std::io;

fn word(to: &impl Print, bytes: &[u8]) -> io::Result<()> {
    to.write_all(bytes)
}

fn number(to: &impl Print, n: usize) -> io::Result<()> {
    print!(to; " {n}")
}

// How many tokens a text has, of which the storage holds one more, for its end.
fn tokens_of(stored: usize) -> usize {
    stored.saturating_sub(1)
}

// Which text is refused.
fn text(to: &impl Print, job: bool) -> io::Result<()> {
    if job {
        return word(to, b"job");
    }
    word(to, b"program")
}

fn answer(to: &impl Print, said: &Said) -> io::Result<()> {
    match said.read {
        Ok(Read { tokens, symbols }) => {
            word(to, b"accepted")?;
            number(to, tokens_of(said.program))?;
            number(to, tokens_of(tokens))?;
            number(to, usize::from(symbols))
        }
        Err(Unread::Refused(refusal)) => {
            text(to, said.job)?;
            number(to, refusal.number)?;
            number(to, refusal.offset)
        }
        Err(Unread::Short) => {
            text(to, said.job)?;
            word(to, b" short")
        }
    }
}

pub fn print(to: &impl Print, title: &[u8], said: Said) -> io::Result<()> {
    word(to, title)?;
    word(to, b": ")?;
    answer(to, &said)?;
    if !said.sound {
        word(to, b" storage!")?;
    }
    word(to, b"\n")
}
