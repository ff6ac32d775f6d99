// The output of an end, into the answer storage: "its value is the output".
ghost use Rattle.std.specs.Prelude.{◌≡◌};
ghost use Rattle.sets.specs.Twins.Fill.{fill_answer};
ghost use Rattle.forward.specs.Twins.Output.{out_left, value_put, name_put, token_put, output_put};

use crate::named::name_value;
use heap::configuration::Configuration;
use linking::code::{CELL, NAME, link_at};
use running::writing::{put_cell, put_range};
use tracing::ask::Asked;
use values::value::Valued;

// A value's cells; one that the heap has no room for is over any limit.
fn put_value(
    heap: &[u16; 65535],
    v: Option<Valued>,
    answer: &mut [u16],
    at: usize,
    limit: usize,
) -> Option<usize>
    ensures { fill_answer result answer.new ≡ value_put v at limit heap.now answer.old }
{
    let v = v?;
    put_range(heap, v.from, v.to, answer, at, limit)
}

// The cells of the token j: a symbol's or a pair's own, a name's value.
fn push_token(
    code: &[u16; 24582],
    heap: &mut [u16; 65535],
    frame: &[u16; 12360],
    c: Configuration,
    a: Asked,
    j: usize,
    answer: &mut [u16],
    at: usize,
    limit: usize,
) -> Option<usize>
    ensures { out_left result heap.new answer.new ≡ token_put code.now c a limit frame.now j at heap.old answer.old }
{
    let l = link_at(code, j);
    if l.mark == CELL {
        return put_cell(l.first, answer, at, limit);
    }
    if l.mark == NAME {
        let v = name_value(code, heap, frame, c, a, j);
        return put_value(heap, v, answer, at, limit);
    }
    Some(at)
}

// Those of the expression at i, behind the configuration's term and what it asked. How many there are.
pub(crate) fn push_output(
    code: &[u16; 24582],
    heap: &mut [u16; 65535],
    frame: &[u16; 12360],
    c: Configuration,
    a: Asked,
    i: usize,
    answer: &mut [u16],
    limit: usize,
) -> Option<usize>
    ensures { out_left result heap.new answer.new ≡ output_put code.now c a limit frame.now i heap.old answer.old }
{
    let to = usize::from(link_at(code, i).past);
    let mut at: usize = 0;
    for j in i..to {
        at = push_token(code, heap, frame, c, a, j, answer, at, limit)?;
    }
    Some(at)
}
