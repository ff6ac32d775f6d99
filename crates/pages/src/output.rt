// What the entries answer, written to standard output page by page. No contract can say what is written; these say how much was taken.
ghost use Rattle.std.specs.Prelude.{◌≡◌, ◌<◌, ◌≤◌, min, length, take, IfOk, IsOk, IsErr};
ghost use Rattle.std.specs.Io.{WritesAtMost};
ghost use Rattle.std.specs.Io.KnownBytes.{Appends, WriteAppends};
ghost use Rattle.window.specs.Windows.{windowed};
ghost use Rattle.resolve.specs.ListAnswer.{list_left};
ghost use Rattle.print.specs.Twins.ListedText.{listed_with};
ghost use Rattle.print.specs.Twins.RanText.{ran_text};
ghost use Rattle.pages.specs.Written.{listed, listed_bytes, written_listing, ran, ran_bytes, written_run};

use crate::page::{list_page, run_page};
use cells::part::part;
use print::first::{Listed, list_first, list_first_sampled};
use resolve::{list, run};
use std::io;
use std::io::{ErrorKind, Write};
use std::rt::Clock;
use std::time::Duration;

// How many writes in a row may take nothing before writing counts as failed, and how many milliseconds lie between two of them: a reader may stand still
// for some seconds.
const TRIES: usize = 10000;

const PAUSE: u64 = 1;

// How many bytes were taken, and how that ended: `Ok` is the whole text, and where it is not whole the error says why.
#[derive(Drop)]
pub struct Written {
    pub bytes: usize,
    pub ended: io::Result<()>,
}

// What was written, and the answer that it is the text of.
#[derive(Drop)]
pub struct Printed<A> {
    pub written: Written,
    pub answer: A,
}

// Whether a write that took nothing may take something later: a signal came between, or the reader of a pipe that does not wait is behind.
fn may_try_again(error: &io::Error) -> bool {
    matches!(error.kind(), ErrorKind::WouldBlock | ErrorKind::Interrupted)
}

// One write that takes something, behind as many that take nothing as are waited for.
fn write_some<W: Write>(clock: &impl Clock, out: &mut W, bytes: &[u8]) -> io::Result<usize>
    ensures bound { WritesAtMost result bytes.now }
    ensures some { IfOk result (λ n. 0 < n) }
    ensures taken { WriteAppends (W.contents out.old) (W.contents out.new) result bytes.now }
{
    let mut last = io::Error::from(ErrorKind::WouldBlock);
    for _ in 0..TRIES {
        match out.write(bytes) {
            Ok(0) => return Err(io::Error::from(ErrorKind::WriteZero)),
            Ok(taken) => return Ok(taken),
            Err(error) => last = error,
        }
        if !may_try_again(&last) {
            return Err(last);
        }
        clock.sleep(Duration::from_millis(PAUSE));
    }
    Err(last)
}

// Writes the bytes, on after each part that is taken: how many were taken, all of them where nothing failed.
fn write_bytes<W: Write>(clock: &impl Clock, out: &mut W, bytes: &[u8]) -> Written
    ensures bound { result.bytes ≤ length bytes.now }
    ensures why { result.bytes < length bytes.now → IsErr result.ended }
    ensures taken { Appends (W.contents out.old) (W.contents out.new) (take result.bytes bytes.now) }
{
    let mut done: usize = 0;
    while done < bytes.len() {
        match write_some(clock, out, &bytes[done..]) {
            Ok(taken) => done += taken,
            Err(error) => {
                return Written {
                    bytes: done,
                    ended: Err(error),
                };
            }
        }
    }
    Written {
        bytes: done,
        ended: Ok(()),
    }
}

// The same of the first n bytes of a page.
fn write_page<W: Write>(clock: &impl Clock, out: &mut W, page: &[u8; 65536], n: usize) -> Written
    ensures bound { result.bytes ≤ n }
    ensures why { n ≤ 65536 → result.bytes < n → IsErr result.ended }
    ensures taken { Appends (W.contents out.old) (W.contents out.new) (take result.bytes page.now) }
{
    write_bytes(clock, out, part(page, 0, n))
}

// Page after page of a listing, whose first page is there: `first` bytes of it are text. The lines have at most 16,384 nodes, of at most 40
// bytes each with what is printed around them, and 256 numbers: 64 pages hold them. Samples have no more nodes than their lines, and names of no more
// bytes than symbols: 128 pages hold both.
fn write_list<W: Write>(
    clock: &impl Clock,
    out: &mut W,
    samples: bool,
    program: &[u8],
    job: &[u8],
    answer: answers::list::Answer,
    cells: &[u16],
    first: usize,
    page: &mut [u8; 65536],
) -> Written
    requires { first ≡ min 65536 (length (listed_with samples program.now job.now cells.now answer)) }
    ensures whole { IsOk result.ended → result.bytes ≡ length (listed_with samples program.now job.now cells.now answer) }
    ensures why { result.bytes < length (listed_with samples program.now job.now cells.now answer) → IsErr result.ended }
    ensures taken { let text = listed_with samples program.now job.now cells.now answer in page.old ≡ windowed 65536 0 text → Appends (W.contents out.old) (W.contents out.new) (take result.bytes text) }
{
    let mut n = first;
    let mut bytes: usize = 0;
    for k in 0..128u32 {
        let taken = write_page(clock, out, page, n);
        bytes += taken.bytes;
        if taken.bytes < n || n < 65536 {
            return Written {
                bytes,
                ended: taken.ended,
            };
        }
        n = list_page(samples, program, job, answer, cells, k + 1, page);
    }
    Written {
        bytes,
        ended: Err(io::Error::from(ErrorKind::FileTooLarge)),
    }
}

// A value of 4,096 nodes has at most 2,048 symbols of 17 bytes and 2,047 pairs of 8: the line fits one page.
fn write_run<W: Write>(
    clock: &impl Clock,
    out: &mut W,
    program: &[u8],
    job: &[u8],
    answer: run_answers::run::Answer,
    cells: &[u16],
) -> Written
    ensures whole { IsOk result.ended → result.bytes ≡ length (ran_text program.now job.now cells.now answer) }
    ensures why { result.bytes < length (ran_text program.now job.now cells.now answer) → IsErr result.ended }
    ensures taken { Appends (W.contents out.old) (W.contents out.new) (take result.bytes (ran_text program.now job.now cells.now answer)) }
{
    let mut page = [0u8; 65536];
    let n = run_page(program, job, answer, cells, 0, &mut page);
    let taken = write_page(clock, out, &page, n);
    if taken.bytes < n || n < 65536 {
        return taken;
    }
    Written {
        bytes: taken.bytes,
        ended: Err(io::Error::from(ErrorKind::FileTooLarge)),
    }
}

// The listing, and its first page.
fn first_page(
    samples: bool,
    program: &[u8],
    job: &[u8],
    work: &mut [u16],
    answer: &mut [u16],
    page: &mut [u8; 65536],
) -> Listed
    ensures { let w = list_left program.now job.now work.old answer.old in (result.answer ≡ w.answer) × (answer.new ≡ w.cells) × (result.bytes ≡ min 65536 (length (listed_with samples program.now job.now w.cells w.answer))) × (page.new ≡ windowed 65536 0 (listed_with samples program.now job.now w.cells w.answer)) }
{
    if samples {
        list_first_sampled(program, job, work, answer, page)
    } else {
        list_first(program, job, work, answer, page)
    }
}

// Writes the listing of the two texts, with samples where they are called for (02, request 2).
pub fn list_texts<W: Write>(
    clock: &impl Clock,
    out: &mut W,
    samples: bool,
    program: &[u8],
    job: &[u8],
) -> Printed<answers::list::Answer>
    ensures whole { (result.answer ≡ listed program.now job.now) × (IsOk result.written.ended → result.written.bytes ≡ listed_bytes samples program.now job.now) }
    ensures why { result.written.bytes < listed_bytes samples program.now job.now → IsErr result.written.ended }
    ensures taken { Appends (W.contents out.old) (W.contents out.new) (take result.written.bytes (written_listing samples program.now job.now)) }
{
    let mut work = [0u16; list::WORK];
    let mut cells = [0u16; list::ANSWER];
    let mut page = [0u8; 65536];
    let Listed { answer, bytes } = first_page(
        samples, program, job, &mut work, &mut cells, &mut page,
    );
    let written = write_list(
        clock, out, samples, program, job, answer, &cells, bytes, &mut page,
    );
    Printed { written, answer }
}

// Writes the line of the program's run on the job's inputs.
pub fn run_texts<W: Write>(
    clock: &impl Clock,
    out: &mut W,
    program: &[u8],
    job: &[u8],
) -> Printed<run_answers::run::Answer>
    ensures whole { (result.answer ≡ ran program.now job.now) × (IsOk result.written.ended → result.written.bytes ≡ ran_bytes program.now job.now) }
    ensures why { result.written.bytes < ran_bytes program.now job.now → IsErr result.written.ended }
    ensures taken { Appends (W.contents out.old) (W.contents out.new) (take result.written.bytes (written_run program.now job.now)) }
{
    let mut work = [0u16; run::WORK];
    let mut cells = [0u16; run::ANSWER];
    let answer = run::run(program, job, &mut work, &mut cells);
    let written = write_run(clock, out, program, job, answer, &cells);
    Printed { written, answer }
}
