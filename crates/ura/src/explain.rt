// What an answer means for whoever waits for the listing, in words, on standard error. Standard output has what is printed of it (01, "Printing") and nothing of this.
use crate::hint::write_hint;
use crate::meaning::meaning;
use crate::place::{line_from, place_of, shown_byte, shown_part};
use answers::list::Word;
use cells::part::part;
use refusals::refusal::Refusal;
use std::io;

// A text, and the name of the file that it stands in.
#[derive(Clone, Copy)]
pub struct Named<'a> {
    pub name: &'a [u8],
    pub text: &'a [u8],
}

// The bytes of a part of a line: tab and printable ASCII as they are, `?` for what could set a terminal.
fn write_line(err: &impl Print, part: &[u8]) -> io::Result<()> {
    for &b in part {
        err.write_all(&[shown_byte(b)])?;
    }
    Ok(())
}

// Under each byte of the line up to the place a blank, or the tab that stands there, so that the caret stands under the place.
fn write_blanks(err: &impl Print, part: &[u8]) -> io::Result<()> {
    for &b in part {
        err.write_all(if b == b'\t' { b"\t" } else { b" " })?;
    }
    Ok(())
}

// The line, a part of it where it is long, and a caret under the place `at` in it.
fn show_place(err: &impl Print, line: &[u8], at: usize) -> io::Result<()> {
    let shown = shown_part(line.len(), at);
    let before = 0 < shown.start;
    err.write_all(if before { b"  ..." } else { b"  " })?;
    write_line(err, part(line, shown.start, shown.end))?;
    if shown.end < line.len() {
        err.write_all(b"...")?;
    }
    err.write_all(if before { b"\n     " } else { b"\n  " })?;
    write_blanks(err, part(line, shown.start, at))?;
    err.write_all(b"^\n")
}

// `FILE:LINE:COLUMN: refused 9: this variable is not in reach`, the line, and a caret under the place.
pub fn refusal(err: &impl Print, refused: Named, refusal: Refusal) -> io::Result<()> {
    let Named { name, text } = refused;
    let Refusal { number, offset } = refusal;
    let place = place_of(text, offset);
    err.write_all(name)?;
    println!(err;
        ":{}:{}: refused {number}: {}",
        place.line,
        place.column,
        meaning(number)
    )?;
    if text.is_empty() {
        return Ok(());
    }
    show_place(
        err,
        line_from(text, place.start),
        offset.saturating_sub(place.start),
    )?;
    write_hint(err, text, offset)
}

// What a listing that is cut or stopped is not: a loader must not be released from it as if it were whole.
pub fn ending(err: &impl Print, word: Word) -> io::Result<()> {
    match word {
        Word::Whole => Ok(()),
        Word::Cut => err.write_all(
            b"NOT COMPLETE: some files of the class run longer than the job's steps, and what they get is not listed\n",
        ),
        Word::Stop21 => err.write_all(
            b"NOT COMPLETE: stopped at a configuration of over 4096 nodes; the lines are a beginning. Narrow the job\n",
        ),
        Word::Stop22 => err.write_all(
            b"NOT COMPLETE: the table is full; the lines are a beginning. Raise table, or narrow the job\n",
        ),
        Word::Stop23 => err.write_all(
            b"NOT COMPLETE: the walk's transitions are used up; the lines are a beginning. Raise walk, or narrow the job\n",
        ),
    }
}
