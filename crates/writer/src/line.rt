// "Each line: its number, its steps", its bindings and its non-equalities. In storage a line has its steps, how many cells its inputs and
// its output have, how many non-equalities there are, then the cells of the inputs, of the output, and two for each non-equality.
ghost use Rattle.std.specs.Prelude.{◌≡◌, ◌++◌, ◌∷◌};
ghost use Rattle.listing.specs.Print.{digits};
ghost use Rattle.window.specs.Twins.Sink.{sink, puts};
ghost use Rattle.window.specs.Twins.TreeText.{symbol_text};
ghost use Rattle.writer.specs.Twins.LineCells.{line_end};
ghost use Rattle.writer.specs.Twins.LineText.{non_equality_text, restriction_text, line_text, lines_text};

use crate::binding::put_bindings;
use crate::sample::{class_end, put_sample_if};
use cells::cell;
use window::digit::put_digits;
use window::leaf::put_leaf;
use window::parts::{ahead, part, rest};
use window::sink::{Place, is_full, put_byte, put_text};

// ` # L R`
fn put_non_equality(
    out: &mut [u8],
    place: Place,
    program: &[u8],
    job: &[u8],
    symbols: &[u16],
    left: u16,
    right: u16,
) -> Place
    ensures { sink result out.new ≡ puts (sink place out.old) (non_equality_text (symbol_text program.now job.now symbols.now) left right) }
{
    let p = put_text(out, place, b" # ");
    let l = put_leaf(out, p, program, job, symbols, left);
    let b = put_byte(out, l, b' ');
    put_leaf(out, b, program, job, symbols, right)
}

// "then ` # L R` for each non-equality, oldest first"
fn put_restriction(
    out: &mut [u8],
    place: Place,
    program: &[u8],
    job: &[u8],
    symbols: &[u16],
    q: &[u16],
) -> Place
    ensures { sink result out.new ≡ puts (sink place out.old) (restriction_text (symbol_text program.now job.now symbols.now) q.now) }
{
    let mut p = place;
    for k in 0..q.len() / 2 {
        p = put_non_equality(out, p, program, job, symbols, q[2 * k], q[2 * k + 1]);
    }
    p
}

// The place behind the line.
pub fn line_end(line: &[u16]) -> usize
    ensures { result ≡ line_end line.now }
{
    class_end(line) + 2 * usize::from(cell::cell(line, 3))
}

// Two numbers with a blank between.
pub fn put_numbers(out: &mut [u8], place: Place, m: usize, n: usize) -> Place
    ensures { sink result out.new ≡ puts (sink place out.old) (digits m ++ (32 ∷ digits n)) }
{
    let p = put_digits(out, place, m);
    let b = put_byte(out, p, b' ');
    put_digits(out, b, n)
}

// The first line of `line`, as number i.
fn put_line(
    out: &mut [u8],
    place: Place,
    program: &[u8],
    job: &[u8],
    symbols: &[u16],
    io: &[u16],
    i: usize,
    line: &[u16],
) -> Place
    ensures { sink result out.new ≡ puts (sink place out.old) (line_text (symbol_text program.now job.now symbols.now) io.now i line.now) }
{
    let m = class_end(line);
    let n = line_end(line);
    let p = put_numbers(out, place, i, usize::from(cell::cell(line, 0)));
    let b = put_bindings(out, p, program, job, symbols, io, part(line, 4, m));
    let q = put_restriction(out, b, program, job, symbols, part(line, m, n));
    put_byte(out, q, b'\n')
}

// As many lines, one behind the other, as far as there are cells and as the window takes them; with `samples`, under each its sample. So it ends soon whatever number is handed in.
pub fn put_lines(
    out: &mut [u8],
    place: Place,
    program: &[u8],
    job: &[u8],
    symbols: &[u16],
    io: &[u16],
    lines: usize,
    answer: &[u16],
    samples: bool,
) -> Place
    ensures { sink result out.new ≡ puts (sink place out.old) (lines_text (symbol_text program.now job.now symbols.now) io.now samples lines 0 answer.now) }
{
    let mut p = place;
    let mut at: usize = 0;
    for i in 0..lines {
        if answer.len() <= at {
            return p;
        }
        if is_full(p, out.len()) {
            return p;
        }
        let line = rest(answer, at);
        let l = put_line(out, p, program, job, symbols, io, i + 1, line);
        p = put_sample_if(out, l, program, job, symbols, line, samples);
        at = ahead(at, line_end(line), answer.len());
    }
    p
}
