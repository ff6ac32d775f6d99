// The cells of a job's data, read off its tokens: a bracket gives no cell, `cons` the cell of a pair, a symbol and a variable their
// codes. A token's mark is its key + 32 * the tag of its kind + ..
ghost use Rattle.std.specs.Prelude.{◌≡◌, ◌-◌, ◌∷◌, []};
ghost use Rattle.sets.specs.Twins.Fill.{fill_answer};
ghost use Rattle.runs.specs.Twins.Runs.{written};
ghost use Rattle.layout.specs.Twins.Data.{datum_cell, datum_written, data_written};

use cells::cell;
use linking::tokens::{key, kind};
use sets::{contraction, tree};
use words::keys::{AVARIABLE, CONS, EVARIABLE, SYMBOL};

// The code that the token i gives; 0, which is no node, if it gives none.
fn datum_cell(jmarks: &[u16], jnums: &[u16], i: usize) -> u16
    ensures { result ≡ datum_cell jmarks.now jnums.now i }
{
    if key(jmarks, i) == CONS {
        return tree::PAIR;
    }
    let number = cell::cell(jnums, i);
    match kind(jmarks, i) {
        SYMBOL => contraction::code(number, 1),
        EVARIABLE => contraction::code(number, 2),
        AVARIABLE => contraction::code(number, 3),
        _ => 0,
    }
}

// One cell, below 65,535, as far as the heap is long: the place behind it, and None past it.
pub(crate) fn lay_cell(heap: &mut [u16], x: u16, at: usize) -> Option<usize>
    ensures { fill_answer result heap.new ≡ written at 1 (x ∷ []) heap.old }
{
    if 65534 < at {
        return None;
    }
    cell::put(heap, at, x);
    Some(at + 1)
}

// The cell of the token i, if it gives one.
fn lay_datum(jmarks: &[u16], jnums: &[u16], i: usize, heap: &mut [u16], at: usize) -> Option<usize>
    ensures { fill_answer result heap.new ≡ datum_written jmarks.now jnums.now i at heap.old }
{
    let code = datum_cell(jmarks, jnums, i);
    if code == 0 {
        return Some(at);
    }
    lay_cell(heap, code, at)
}

// The cells of the tokens from `from` up to `to`, one behind the other, from `at` on: the place behind them, and None where
// they do not fit.
pub(crate) fn lay_data(
    jmarks: &[u16],
    jnums: &[u16],
    from: usize,
    to: usize,
    heap: &mut [u16],
    at: usize,
) -> Option<usize>
    ensures { fill_answer result heap.new ≡ data_written jmarks.now jnums.now (to - from) from at heap.old }
{
    let mut k = at;
    for i in from..to {
        k = lay_datum(jmarks, jnums, i, heap, k)?;
    }
    Some(k)
}
