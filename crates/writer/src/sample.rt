// The sample of a line: "each prints under its line as `(in D ..) (out D)`, one blank between parts" (02, request 2).
ghost use Rattle.std.specs.Prelude.{◌≡◌, take};
ghost use Rattle.window.specs.Twins.Sink.{sink, puts};
ghost use Rattle.window.specs.Twins.TreeText.{symbol_text};
ghost use Rattle.writer.specs.Twins.LineCells.{class_end};
ghost use Rattle.writer.specs.Twins.SampleText.{inputs_text, sample_text, filled_line, filled_text, sample_if};

use cells::cell;
use samples::fill::fill_sample;
use sets::tree;
use window::parts::{front, part, rest};
use window::sink::{Place, put_byte, put_text};
use window::tree::put_tree;

// The place behind the inputs and the output of the line.
pub(crate) fn class_end(line: &[u16]) -> usize
    ensures { result ≡ class_end line.now }
{
    4 + usize::from(cell::cell(line, 1)) + usize::from(cell::cell(line, 2))
}

// A blank and the tree, for each of the trees that stand one behind the other.
fn put_inputs(
    out: &mut [u8],
    place: Place,
    program: &[u8],
    job: &[u8],
    symbols: &[u16],
    inputs: &[u16],
) -> Place
    ensures { sink result out.new ≡ puts (sink place out.old) (inputs_text (symbol_text program.now job.now symbols.now) inputs.now) }
{
    let mut p = place;
    let mut at: usize = 0;
    while at < inputs.len() {
        let end = tree::tree_end(inputs, at);
        let b = put_byte(out, p, b' ');
        p = put_tree(out, b, program, job, symbols, part(inputs, at, end));
        at = end;
    }
    p
}

// The inputs are the first `ins` cells, the output those behind them.
fn put_sample(
    out: &mut [u8],
    place: Place,
    program: &[u8],
    job: &[u8],
    symbols: &[u16],
    cells: &[u16],
    ins: usize,
) -> Place
    ensures { sink result out.new ≡ puts (sink place out.old) (sample_text (symbol_text program.now job.now symbols.now) cells.now ins) }
{
    let p = put_text(out, place, b"(in");
    let i = put_inputs(out, p, program, job, symbols, front(cells, ins));
    let q = put_text(out, i, b") (out ");
    let o = put_tree(out, q, program, job, symbols, rest(cells, ins));
    put_text(out, o, b")\n")
}

// The inputs and the output of the first line of `line`, with a new atom for each variable; how many cells they take. No line has more than 4,096.
pub fn fill_line(line: &[u16], cells: &mut [u16; 4096]) -> usize
    ensures { let w = filled_line line.now cells.old in (result ≡ w.size) × (cells.new ≡ w.cells) }
{
    let class = part(line, 4, class_end(line));
    let n = class.len().min(4096);
    tree::copy(class, 0, n, cells, 0);
    fill_sample(cells, n);
    n
}

// The first n cells, of which the first `ins` are the inputs.
fn put_cells(
    out: &mut [u8],
    place: Place,
    program: &[u8],
    job: &[u8],
    symbols: &[u16],
    cells: &[u16; 4096],
    n: usize,
    ins: usize,
) -> Place
    ensures { sink result out.new ≡ puts (sink place out.old) (sample_text (symbol_text program.now job.now symbols.now) (take n cells.now) ins) }
{
    put_sample(out, place, program, job, symbols, front(cells, n), ins)
}

// The sample of the first line of `line`.
fn put_filled(
    out: &mut [u8],
    place: Place,
    program: &[u8],
    job: &[u8],
    symbols: &[u16],
    line: &[u16],
) -> Place
    ensures { sink result out.new ≡ puts (sink place out.old) (filled_text (symbol_text program.now job.now symbols.now) line.now) }
{
    let mut cells: [u16; 4096] = [0; 4096];
    let n = fill_line(line, &mut cells);
    let ins = usize::from(cell::cell(line, 1));
    put_cells(out, place, program, job, symbols, &cells, n, ins)
}

// "Where called for"
pub(crate) fn put_sample_if(
    out: &mut [u8],
    place: Place,
    program: &[u8],
    job: &[u8],
    symbols: &[u16],
    line: &[u16],
    samples: bool,
) -> Place
    ensures { sink result out.new ≡ puts (sink place out.old) (sample_if (symbol_text program.now job.now symbols.now) samples line.now) }
{
    if samples {
        return put_filled(out, place, program, job, symbols, line);
    }
    place
}
