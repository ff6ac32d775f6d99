// A second tool over the set operations, without the walker. It reads problems, one a line, from standard input or from the
// file that its first argument names:
//
//     D D [D D] ..
//
// two expressions, d in the grammar (01, "Texts"), and any number of non-equalities. For each it prints one line: the expression
// that the two have in common where the non-equalities hold, then ` # L R` for each non-equality that is left, oldest
// first; `apart` where there is none; `over` beyond 4,096 nodes; or `broken N`, the offset in the line of the token at
// fault, or the line's length where it ends early. A blank line prints nothing.
//
// The first expression is the wanted one. A `?a` of a non-equality need not stand in an expression. At most 64 brackets are
// open together, 1,024 symbols stand in a line and 4,096 cells in an expression; what goes beyond is broken there. The text
// is cut at 65,536 bytes.
#![tactic(auto)]

mod printer;
mod reader;

use heap::entry;
use meetings::class::{Class, Met, NODES};
use meetings::unifier;
use printer::{Page, Words};
use reader::{Problem, Unread};
use restrictions::failure::Failure;
use restrictions::restriction;
use sets::tree;
use std::env::{Env, FillError};
use std::io;
use std::io::Read;
use streams::failure::{fail, name_too_long};
use streams::reading::{open_read, read_full};

// Room for the text, and for a path.
const TEXT: usize = 65536;

const PATH: usize = 4096;

// A non-equality has at least 7 bytes, so that 9,362 stand in a text: two cells each.
const WRITTEN: usize = 18724;

// The entries of the two expressions, where they were read: first the wanted one.
fn enter(frame: &mut [u16; 12360], problem: Problem) {
    entry::push_entry(frame, 0, 0, 0, problem.wanted);
    entry::push_entry(frame, 1, 0, NODES, NODES + problem.output.min(NODES));
}

// The intersection of the two expressions in the heap, with the non-equalities that were written; a contradiction among
// these leaves nothing. Where more than 2,047 are left, they are over 4,096 nodes with any two expressions, so that q need
// not have room for all.
fn meet(
    heap: &mut [u16; 65535],
    frame: &mut [u16; 12360],
    written: &mut [u16],
    q: &mut [u16; 4096],
    problem: Problem,
) -> Met {
    let neqs = restriction::simplify(written, problem.neqs)?;
    tree::copy(written, 0, 2 * neqs.min(NODES / 2), q, 0);
    enter(frame, problem);
    let class = Class {
        entries: 1,
        used: 2 * NODES,
        neqs,
        floor: 0,
    };
    unifier::unify(heap, frame, q, class)
}

// Prints what is left: the wanted expression is the first entry.
fn print_met(
    page: &mut Page<impl Print>,
    words: Words,
    heap: &[u16; 65535],
    frame: &[u16; 12360],
    q: &[u16; 4096],
    met: Met,
) -> io::Result<()> {
    match met {
        Ok(c) => {
            let to = usize::from(frame[2]);
            let from = usize::from(frame[1]).min(to);
            page.common(words, &heap[from..to], q, c.neqs)
        }
        Err(Failure::Contradiction) => page.line(b"apart"),
        Err(Failure::Over) => page.line(b"over"),
    }
}

// Prints the answer to a line. Nothing that stands in the heap or in the frame before is read.
fn answer(
    page: &mut Page<impl Print>,
    text: &[u8],
    heap: &mut [u16; 65535],
    frame: &mut [u16; 12360],
) -> io::Result<()> {
    let mut written = [0u16; WRITTEN];
    let mut names = [0usize; reader::SYMBOLS];
    match reader::read_problem(text, heap, &mut written, &mut names) {
        Err(Unread::Blank) => Ok(()),
        Err(Unread::Broken(broken)) => page.broken(broken.at),
        Ok(problem) => {
            let mut q = [0u16; 4096];
            let met = meet(heap, frame, &mut written, &mut q, problem);
            let words = Words {
                text,
                names: &names,
            };
            print_met(page, words, heap, frame, &q, met)
        }
    }
}

// Reads the text and prints the answer to each line.
fn run<R: Read>(reader: &mut R, out: &impl Print) -> io::Result<()> {
    let mut text = [0u8; TEXT];
    let n = read_full(reader, &mut text)?;
    let mut heap = [0u16; 65535];
    let mut frame = [0u16; 12360];
    let mut page = Page::new(out);
    for line in text[..n].split(|b| *b == b'\n') {
        answer(&mut page, line, &mut heap, &mut frame)?;
    }
    page.flush()
}

// Standard input, or the file that the first argument names; standard error has why that one cannot be opened.
fn main(rt: HostRuntime) -> io::Result<()> {
    let mut path = [0u8; PATH];
    let n = match rt.arg(1, &mut path) {
        Ok(n) => n,
        Err(FillError::NotPresent) => return run(&mut rt.stdin(), &rt.stdout()),
        Err(FillError::TooLong) => {
            fail(&rt.stderr(), b"path", &name_too_long());
            return Ok(());
        }
    };
    match open_read(&rt, &path[..n]) {
        Ok(mut file) => run(&mut file, &rt.stdout()),
        Err(error) => {
            fail(&rt.stderr(), &path[..n], &error);
            Ok(())
        }
    }
}
