// Why a file or a stream failed, in the system's words.
use std::io;
use std::io::Write;

// The system's number for a name that is too long.
const ENAMETOOLONG: i32 = 36;

// Room for the words of any error.
const WORDS: usize = 256;

// Writes a line to standard error: what failed, as the caller names it, a colon and the system's words. Where standard error takes nothing, nobody reads it.
pub fn fail(err: &impl Print, what: &[u8], error: &io::Error) {
    let mut space = [0u8; WORDS];
    let words = words_of(error, &mut space);
    let _ = tell(err, what, words);
}

fn tell(err: &impl Print, what: &[u8], words: &str) -> io::Result<()> {
    err.write_all(what)?;
    err.write_all(b": ")?;
    err.write_all(words.as_bytes())?;
    err.write_all(b"\n")
}

// The words alone: an error is printed with its number in brackets behind them.
fn words_of<'a>(error: &io::Error, space: &'a mut [u8]) -> &'a str {
    let mut room: &mut [u8] = &mut *space;
    let _ = write!(room, "{error}");
    let Ok(text) = std::str::from_utf8(space) else {
        return "";
    };
    match text.split_once(" (os error ") {
        Some((words, _)) => words,
        None => text.trim_end_matches('\0'),
    }
}

// What failed where a file's name is longer than there is room for.
pub fn name_too_long() -> io::Error {
    io::Error::from_raw_os_error(ENAMETOOLONG)
}
