// A job in the heap: its inputs, behind them the wanted output, behind it the sides of the non-equalities.
ghost use Rattle.std.specs.Prelude.{◌≡◌};
ghost use Rattle.sets.specs.Twins.Fill.{fill_answer};
ghost use Rattle.restrictions.specs.Twins.Restricting.{restrict_answer};
ghost use Rattle.layout.specs.Twins.Laying.{output_laid, sides_laid, laid_left, ends_laid, job_laid, sides_taken};

use crate::datum::{lay_cell, lay_data};
use restrictions::failure::Failure;
use restrictions::restriction;
use sets::tree;
use syntax::job_ends::JobEnds;

// The index of the first input in a job.
const INPUTS: usize = 4;

// The cell of the symbol 0.
const ZERO: u16 = 1;

// Where each part ends.
#[derive(Clone, Copy)]
pub struct Parts {
    pub ins: usize,
    pub io: usize,
    pub all: usize,
}

// The wanted output. The runner "uses only the inputs and N": in its place the symbol 0.
fn lay_output(
    jmarks: &[u16],
    jnums: &[u16],
    parts: JobEnds,
    heap: &mut [u16],
    at: usize,
    run: bool,
) -> Option<usize>
    ensures { fill_answer result heap.new ≡ output_laid jmarks.now jnums.now parts at run heap.old }
{
    if run {
        return lay_cell(heap, ZERO, at);
    }
    lay_data(jmarks, jnums, parts.from, parts.out, heap, at)
}

// The sides of the non-equalities; a run has none.
fn lay_sides(
    jmarks: &[u16],
    jnums: &[u16],
    parts: JobEnds,
    heap: &mut [u16],
    at: usize,
    run: bool,
) -> Option<usize>
    ensures { fill_answer result heap.new ≡ sides_laid jmarks.now jnums.now parts at run heap.old }
{
    if run {
        return Some(at);
    }
    lay_data(jmarks, jnums, parts.sides, parts.neqs, heap, at)
}

// What stands behind the inputs, which end at `ins`.
fn lay_ends(
    jmarks: &[u16],
    jnums: &[u16],
    parts: JobEnds,
    heap: &mut [u16],
    ins: usize,
    run: bool,
) -> Option<Parts>
    ensures { laid_left result heap.new ≡ ends_laid jmarks.now jnums.now parts ins run heap.old }
{
    let io = lay_output(jmarks, jnums, parts, heap, ins, run)?;
    let all = lay_sides(jmarks, jnums, parts, heap, io, run)?;
    Some(Parts { ins, io, all })
}

// The inputs, the wanted output and the sides of the job whose parts stand so, one behind the other from the first cell on. With `run` its inputs
// alone. None: they do not fit.
pub fn lay_job(
    jmarks: &[u16],
    jnums: &[u16],
    parts: JobEnds,
    heap: &mut [u16],
    run: bool,
) -> Option<Parts>
    ensures { laid_left result heap.new ≡ job_laid jmarks.now jnums.now parts run heap.old }
{
    let ins = lay_data(jmarks, jnums, INPUTS, parts.ins, heap, 0)?;
    lay_ends(jmarks, jnums, parts, heap, ins, run)
}

// The sides that stand in the heap from `from` up to `to` as non-equalities, simplified.
pub fn take_sides(
    heap: &[u16; 65535],
    q: &mut [u16; 4096],
    from: usize,
    to: usize,
) -> Result<usize, Failure>
    ensures { restrict_answer result q.new ≡ sides_taken from to heap.now q.old }
{
    let n = to.saturating_sub(from);
    if tree::copy(heap, from, n, q, 0) {
        return restriction::simplify(q, n / 2);
    }
    Err(Failure::Over)
}
