// The figures of 001 and the cases of 01, "Printing, and cases", run forwards and listed. It reads cases from standard input, three lines each,
//
//     # TITLE
//     P: the program's text
//     R: the job's text, for a run, or L: the job's text, for a listing
//
// and prints the title and what is printed (01, "Printing, and cases"); of a listing then the text with samples too, and under each sample what is printed of
// its run: "The published evaluation gives the wanted output on it, in the line's number of steps, and so does the forward runner" (02, request 2). The lent
// storages are full of garbage before each.
#![tactic(auto)]

ghost use Rattle.std.specs.Prelude.{◌<◌, ◌≤◌, length};

use cells::part::part;
use print::list::{print_list, print_sampled};
use print::ran::print_run;
use resolve::{list, run};
use std::io;
use streams::reading::read_full;
use window::sink::{opened, put_text, written};

// Room for the text of cases, and for what is printed of one.
const PAGE: usize = 65536;

// What the lent storages are full of.
const GARBAGE: u16 = 43981;

// The first line, and what stands behind it.
fn first_line(text: &[u8]) -> (&[u8], &[u8])
    ensures within { length result.1.now ≤ length text.now }
    ensures past { 0 < length text.now → length result.1.now < length text.now }
{
    match text.iter().position(|b| *b == b'\n') {
        Some(end) => (&text[..end], &text[end + 1..]),
        None => (text, &[]),
    }
}

fn write_line(to: &impl Print, line: &[u8]) -> io::Result<()> {
    to.write_all(line)?;
    to.write_all(b"\n")
}

fn run_case(to: &impl Print, program: &[u8], job: &[u8]) -> io::Result<()> {
    let mut work = [GARBAGE; run::WORK];
    let mut cells = [GARBAGE; run::ANSWER];
    let mut page = [0u8; PAGE];
    let answer = run::run(program, job, &mut work, &mut cells);
    let n = print_run(program, job, answer, &cells, 0, &mut page);
    to.write_all(part(&page, 0, n))
}

// The run of a sample, whose line stands in the job as it is printed.
fn run_sample(to: &impl Print, program: &[u8], sample: &[u8]) -> io::Result<()> {
    let mut text = [0u8; PAGE];
    let p = put_text(&mut text, opened(0), b"(job ");
    let q = put_text(&mut text, p, sample);
    let r = put_text(&mut text, q, b" (neq) (steps 1000) (walk 0) (table 0))");
    run_case(to, program, part(&text, 0, written(r)))
}

// The lines of a listing with samples: a sample alone begins with a bracket.
fn sampled_lines(to: &impl Print, program: &[u8], text: &[u8]) -> io::Result<()> {
    let mut rest = text;
    while !rest.is_empty() {
        let (line, behind) = first_line(rest);
        write_line(to, line)?;
        if line.starts_with(b"(") {
            run_sample(to, program, line)?;
        }
        rest = behind;
    }
    Ok(())
}

fn list_case(to: &impl Print, program: &[u8], job: &[u8]) -> io::Result<()> {
    let mut work = [GARBAGE; list::WORK];
    let mut cells = [GARBAGE; list::ANSWER];
    let mut page = [0u8; PAGE];
    let answer = list::list(program, job, &mut work, &mut cells);
    let n = print_list(program, job, answer, &cells, 0, &mut page);
    to.write_all(part(&page, 0, n))?;
    let m = print_sampled(program, job, answer, &cells, 0, &mut page);
    sampled_lines(to, program, part(&page, 0, m))
}

// What stands behind a line's letter, its colon and the blank.
fn content(line: &[u8]) -> &[u8] {
    part(line, 3, line.len())
}

fn answers(to: &impl Print, text: &[u8]) -> io::Result<()> {
    let mut rest = text;
    while !rest.is_empty() {
        let (title, behind) = first_line(rest);
        let (program, behind) = first_line(behind);
        let (job, behind) = first_line(behind);
        write_line(to, title)?;
        if job.starts_with(b"L") {
            list_case(to, content(program), content(job))?;
        } else {
            run_case(to, content(program), content(job))?;
        }
        rest = behind;
    }
    Ok(())
}

fn main(rt: HostRuntime) -> io::Result<()> {
    let mut text = [0u8; PAGE];
    let n = read_full(&mut rt.stdin(), &mut text)?;
    answers(&rt.stdout(), &text[..n])
}
