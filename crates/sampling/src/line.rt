// The sample of a line, from the answer storage that `list` left.
ghost use Rattle.std.specs.Prelude.{◌≡◌, drop};
ghost use Rattle.sets.specs.Twins.Copying.{copied};
ghost use Rattle.sampling.specs.SampleDemand.{OfEachLine};
ghost use Rattle.sampling.specs.Twins.Lines.{is_line, behind_lines, sample_cells, sample_of, sample_left};

use cells::cell::cell;
use lent::clear::clear;
use sets::tree;
use window::parts::{ahead, rest};
use writer::line::line_end;
use writer::sample::fill_line;

// How many cells the sample's inputs have, which come first, and how many its output.
#[derive(Clone, Copy)]
pub struct Sampled {
    pub ins: usize,
    pub out: usize,
}

// Why there is no sample. Absent: there is no line of that number. Short: the storage has fewer than 4,096 cells.
#[derive(Clone, Copy)]
pub enum Unsampled {
    Absent,
    Short,
}

// The least length of the storage for a sample, in cells: no line has more nodes.
pub const SAMPLE: usize = 4096;

// Where the line stands that has so many before it; past the end where there are not so many.
fn line_place(answer: &[u16], before: usize) -> usize
    ensures { drop result answer.now ≡ behind_lines before answer.now }
{
    let mut at: usize = 0;
    for _ in 0..before {
        if answer.len() <= at {
            return at;
        }
        at = ahead(at, line_end(rest(answer, at)), answer.len());
    }
    at
}

// What stands there is a line: an output has a node at least, and no line more than 4,096 of them. Behind the last line there are zeros.
fn is_line(ins: usize, out: usize) -> bool
    ensures { result ≡ is_line ins out }
{
    out != 0 && ins <= SAMPLE && out <= SAMPLE - ins
}

fn copy_front(cells: &[u16; 4096], n: usize, sample: &mut [u16])
    ensures { sample.new ≡ (copied cells.now 0 n sample.old 0).cells }
{
    tree::copy(cells, 0, n, sample, 0);
}

// The cells of the line's sample, and "zeros follow to the end".
fn put_sample(line: &[u16], sample: &mut [u16])
    ensures { sample.new ≡ sample_cells line.now sample.old }
{
    let mut cells: [u16; 4096] = [0; 4096];
    let n = fill_line(line, &mut cells);
    clear(sample);
    copy_front(&cells, n, sample);
}

// The sample of the first line of `line`, if there is one.
fn sample_first(line: &[u16], sample: &mut [u16]) -> Result<Sampled, Unsampled>
    ensures { let w = sample_of line.now sample.old in (result ≡ w.answer) × (sample.new ≡ w.cells) }
{
    let ins = usize::from(cell(line, 1));
    let out = usize::from(cell(line, 2));
    if !is_line(ins, out) {
        return Err(Unsampled::Absent);
    }
    put_sample(line, sample);
    Ok(Sampled { ins, out })
}

// The sample of the line with this number, counted from 1 as it is printed: "For each line it wants one known input, with its output" (02, request 2).
// Where the line is absent or the storage short, nothing is touched. Of the storage that `list` left it is the sample of that line of the listing.
pub fn sample_line(answer: &[u16], number: usize, sample: &mut [u16]) -> Result<Sampled, Unsampled>
    ensures { (let w = sample_left number answer.now sample.old in (result ≡ w.answer) × (sample.new ≡ w.cells)) × OfEachLine answer.now number result sample.old sample.new }
{
    if sample.len() < SAMPLE {
        return Err(Unsampled::Short);
    }
    if number == 0 {
        return Err(Unsampled::Absent);
    }
    let line = rest(answer, line_place(answer, number - 1));
    sample_first(line, sample)
}
