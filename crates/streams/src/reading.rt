// Files and streams that are read.
ghost use Rattle.std.specs.Prelude.{◌<◌, length, take, IfOk};
ghost use Rattle.std.specs.Io.{ReadsAtMost};
ghost use Rattle.std.specs.Io.KnownBytes.{Consumes, IsAtEnd};

use std::io::{ErrorKind, Read};
use std::rt::Files;
use std::{fs, io};

// The bytes up to the reader's end, or as many as there is room for: how many they are. They stand at the front of `buf`.
pub fn read_full<R: Read>(reader: &mut R, buf: &mut [u8]) -> io::Result<usize>
    ensures bound { ReadsAtMost result buf.new }
    ensures bytes { IfOk result (λ n. Consumes (R.remaining reader.old) (R.remaining reader.new) (take n buf.new)) }
    ensures end { IfOk result (λ n. n < length buf.old → IsAtEnd (R.remaining reader.new)) }
{
    let mut done = 0;
    for _ in 0..u64::MAX {
        if buf.len() <= done {
            return Ok(done);
        }
        match reader.read(&mut buf[done..]) {
            Ok(0) => return Ok(done),
            Ok(n) => done += n,
            Err(error) => {
                if error.kind() != ErrorKind::Interrupted {
                    return Err(error);
                }
            }
        }
    }
    Err(io::Error::from(ErrorKind::Interrupted))
}

// Opens the file for reading. std names a file by text alone, so that a name of other bytes names none.
pub fn open_read<R: Files>(rt: &R, path: &[u8]) -> io::Result<R::File> {
    match std::str::from_utf8(path) {
        Ok(text) => fs::open(rt, text),
        Err(_) => Err(io::Error::new(ErrorKind::InvalidFilename, "the file's name is not UTF-8")),
    }
}

#[cfg(test)]
mod tests {
    use super::*;

    // Gives the byte 7 at each second call, is interrupted at the others, ends after `ends` calls and fails at call `fails`.
    #[derive(Drop)]
    struct Slow {
        calls: u8,
        ends: u8,
        fails: u8,
    }

    impl Read for Slow {
        fn read(&mut self, buf: &mut [u8]) -> io::Result<usize> {
            self.calls = self.calls.saturating_add(1);
            if self.calls == self.fails {
                return Err(io::Error::from(ErrorKind::TimedOut));
            }
            if self.calls % 2 == 1 {
                return Err(io::Error::from(ErrorKind::Interrupted));
            }
            if self.ends <= self.calls {
                return Ok(0);
            }
            match buf.first_mut() {
                None => Ok(0),
                Some(first) => {
                    *first = 7;
                    Ok(1)
                }
            }
        }
    }

    #[test]
    fn reads_on_and_says_what_failed(rt: HostRuntime) {
        for (ends, fails, want) in [
            (1, 0, Some(0)),
            (9, 0, Some(4)),
            (99, 0, Some(6)),
            (99, 7, None),
        ] {
            let mut buf = [0u8; 6];
            let mut reader = Slow {
                calls: 0,
                ends,
                fails,
            };
            let got = read_full(&mut reader, &mut buf);
            match want {
                None => assert_eq!(rt; got.err().map(|e| e.kind()), Some(ErrorKind::TimedOut)),
                Some(n) => {
                    assert_eq!(rt; got.ok(), Some(n));
                    assert_eq!(rt; buf.iter().filter(|b| **b == 7).count(), n);
                }
            }
        }
    }
}
