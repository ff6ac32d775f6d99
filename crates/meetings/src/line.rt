// A line in the answer storage: its steps, how many cells its inputs have, how many its output, how many non-equalities it has; then these cells and the
// non-equalities' sides.
ghost use Rattle.std.specs.Prelude.{◌≡◌, ◌≤◌};
ghost use Rattle.meetings.specs.Twins.LineCells.{line_answer, header_put, entry_put, entries_put, line_put};

use crate::class;
use crate::class::Class;
use cells::cell;
use heap::entry;
use sets::tree;

// A place past this one is as this one: no answer storage is so long.
const LAST: usize = 16777216;

// What stands before a line's cells.
#[derive(Drop)]
pub(crate) struct Header {
    pub steps: usize,
    pub ins: usize,
    pub out: usize,
    pub neqs: usize,
}

// The header from `top` on: the place behind it.
fn put_header(h: Header, answer: &mut [u16], top: usize) -> usize
    ensures { line_answer result answer.new ≡ header_put h top answer.old }
{
    let at = top.min(LAST);
    cell::put(answer, at, cell::narrow(h.steps));
    cell::put(answer, at + 1, cell::narrow(h.ins));
    cell::put(answer, at + 2, cell::narrow(h.out));
    cell::put(answer, at + 3, cell::narrow(h.neqs));
    at + 4
}

// The cells of the entry i from `top` on: the place behind them.
fn put_entry(
    heap: &[u16; 65535],
    frame: &[u16; 12360],
    i: usize,
    answer: &mut [u16],
    top: usize,
) -> usize
    ensures { line_answer result answer.new ≡ entry_put i heap.now frame.now top answer.old }
{
    let at = top.min(LAST);
    let p = class::entry_at(frame, i);
    let n = class::entry_size(frame, i);
    tree::copy(heap, p.from, n, answer, at);
    at + n
}

// The cells of the first n entries.
fn put_entries(
    heap: &[u16; 65535],
    frame: &[u16; 12360],
    n: usize,
    answer: &mut [u16],
    top: usize,
) -> usize
    ensures { line_answer result answer.new ≡ entries_put n 0 heap.now frame.now top answer.old }
{
    let mut at = top;
    for i in 0..n {
        at = put_entry(heap, frame, i, answer, at);
    }
    at
}

// A line more: the class that a meeting left. The place behind it.
pub fn put_line(
    heap: &[u16; 65535],
    frame: &[u16; 12360],
    q: &[u16; 4096],
    c: Class,
    steps: usize,
    answer: &mut [u16],
    top: usize,
) -> usize
    ensures { line_answer result answer.new ≡ line_put c steps heap.now frame.now q.now top answer.old }
{
    let w = class::wanted_entry(c);
    let ins = entry::nodes(frame, w);
    let out = class::entry_size(frame, w);
    let h = Header {
        steps,
        ins,
        out,
        neqs: c.neqs,
    };
    let at = put_header(h, answer, top);
    let end = put_entries(heap, frame, class::output_entry(c), answer, at).min(LAST);
    let sides = 2 * c.neqs.min(2048);
    tree::copy(q, 0, sides, answer, end);
    end + sides
}
