// Tries the readers at each limit of 01, "Texts", on both sides of it, and on the readings of its open places. It reads cases from standard input
// and prints a line for each: the title, then
//
//     accepted P J S               the program's tokens, the job's, and the symbols of both together
//     program NUMBER OFFSET        a refusal; of the job, `job NUMBER OFFSET`
//     program short                20, lent storage too short; of the job, `job short`
//
// and `storage!` behind it where a reader left its storages otherwise than it must.
//
// A case is a title and up to four lines below it, in any order; a line that begins otherwise says nothing:
//
//     # TITLE
//     P: the program's text; where the line is missing, (define f [e.x] e.x)
//     J: the job's text; where the line is missing, (job (in) (out 'A) (neq) (steps 9) (walk 9) (table 9))
//     run                          the tool is the runner, otherwise the lister
//     short K                      a storage is lent one cell too short: 1 to 5 the program's marks, nums, ats, symbols, names,
//                                  and 6 to 10 the job's
//
// In a text `\n`, `\r` and `\t` are the bytes 10, 13 and 9, and `\xHH` is the byte with these two hexadecimal digits, in lower case.
// `<17*A>` is what stands between `*` and `>` 17 times; in there `#` is the number of the time, from 1 on. Repetitions do not nest, and
// `<`, `>`, `\` and, in a repetition, `#` themselves are written by their numbers. A text that is longer than the room for it is cut there,
// which is over the limit of 01, "From the input". The text of cases is cut at 65,536 bytes.
#![tactic(auto)]

mod cases;
mod notation;
mod printer;
mod reading;
mod shortage;
mod storage;

use cases::{find, line_from};
use cells::part::part;
use notation::{expand, numeral};
use printer::print;
use reading::{Said, read_case};
use shortage::{short_job, short_program};
use std::io;
use streams::reading::read_full;

// Room for the text of cases.
const CASES: usize = 65536;

// Room for more than a text may have.
const PROGRAM_ROOM: usize = 32800;

const JOB_ROOM: usize = 8224;

// The text that a case has in the line which begins with the letter, else the other.
fn text_of(case: &[u8], letter: u8, other: &[u8], out: &mut [u8]) -> usize {
    let at = line_from(case, 0, letter);
    if case.len() <= at {
        return expand(other, out);
    }
    let end = find(case, at, b'\n');
    expand(part(case, at + 3, end), out)
}

// Whether the tool is the runner.
fn runs(case: &[u8]) -> bool {
    line_from(case, 0, b'r') < case.len()
}

// The number of the storage that is lent too short, or 0.
fn short(case: &[u8]) -> usize {
    let at = line_from(case, 0, b's');
    if case.len() <= at {
        return 0;
    }
    numeral(case, at + 6)
}

// The title, without its sign and the blank behind it.
fn title(case: &[u8]) -> &[u8] {
    part(case, 2, find(case, 0, b'\n'))
}

// What the readers say to the two texts, on storages that are long enough or on those of which one is not.
fn said(program: &[u8], job: &[u8], runs: bool, short: usize) -> Said {
    match short {
        0 => read_case(program, job, runs),
        1..=5 => short_program(program, short),
        _ => short_job(runs, job, short - 5),
    }
}

// Writes both texts of a case out, and prints what the readers say.
fn answer(to: &impl Print, case: &[u8]) -> io::Result<()> {
    let mut program_space = [0u8; PROGRAM_ROOM];
    let mut job_space = [0u8; JOB_ROOM];
    let program: &mut [u8] = &mut program_space;
    let job: &mut [u8] = &mut job_space;
    let p = text_of(case, b'P', b"(define f [e.x] e.x)", program);
    let j = text_of(
        case,
        b'J',
        b"(job (in) (out 'A) (neq) (steps 9) (walk 9) (table 9))",
        job,
    );
    let told = said(
        part(program, 0, p),
        part(job, 0, j),
        runs(case),
        short(case),
    );
    print(to, title(case), told)
}

// The cases: each goes up to the next title.
fn answers(to: &impl Print, text: &[u8]) -> io::Result<()> {
    let mut from = line_from(text, 0, b'#');
    while from < text.len() {
        let end = line_from(text, find(text, from, b'\n') + 1, b'#');
        answer(to, part(text, from, end))?;
        from = end;
    }
    Ok(())
}

fn main(rt: HostRuntime) -> io::Result<()> {
    let mut text = [0u8; CASES];
    let n = read_full(&mut rt.stdin(), &mut text)?;
    answers(&rt.stdout(), &text[..n])
}
