// Runs of the heap. What is made is written at `used` and behind it, so that every range below stays as it is.
ghost use Rattle.std.specs.Prelude.{◌≡◌, ◌∷◌, [], ◌+◌, ◌-◌, ◌≤◌, length};
ghost use Rattle.std.proofs.lemmas.List.Edits.{sets};
ghost use Rattle.sets.specs.Twins.Copying.{any_cell};
ghost use Rattle.sets.specs.Twins.Fill.{fill_answer, spread};
ghost use Rattle.runs.specs.Twins.Runs.{run, count_in, seen_in, lacks_next, first_in, spread_size, appended, appended_filled, moved_by, replace_answer, replaced, appended_pair};

use codes::code::{met, met_variable, one_if, renamed};
use codes::outcome::{Replaced, without};
use sets::tree;

// The cells of the heap.
pub const SIZE: usize = 65535;

// The cells from one place up to another, and none where that lies before it.
fn part(heap: &[u16; 65535], from: usize, to: usize) -> &[u16]
    requires { to ≤ 65535 }
    ensures { result.now ≡ run from to heap.now }
{
    if to <= from {
        return &[];
    }
    &heap[from..to]
}

// Whether x stands in cells. Every cell is looked at, with no way out before the last: the compiler then compares many at once.
fn stands(cells: &[u16], x: u16) -> bool
    ensures { result ≡ any_cell x cells.now }
{
    let mut n: u16 = 0;
    for code in cells {
        n = met(n, *code, x);
    }
    n == 1
}

// How often x stands in a run, and whether any variable does.
#[derive(Clone, Copy)]
struct Seen {
    count: u16,
    variables: bool,
}

// The count is a cell, so that many are counted at once: no run is longer than the heap.
fn look_through(cells: &[u16], x: u16) -> Seen
    requires { length cells.now ≤ 65535 }
    ensures { result ≡ seen_in x cells.now }
{
    let mut n: u16 = 0;
    let mut v: u16 = 0;
    for code in cells {
        n += one_if(*code, x);
        v = met_variable(v, *code);
    }
    Seen {
        count: n,
        variables: v == 1,
    }
}

// As many cells as there are when each x, which stands in them n times, becomes `size` cells.
fn filled_size(cells: &[u16], x: u16, n: u16, size: usize) -> usize
    requires { (size ≤ 65535) × (n ≡ count_in x cells.now) }
    ensures { result ≡ spread_size x size cells.now }
{
    let k = usize::from(n);
    cells.len() + k * size - k
}

// Whether the n cells from a place on are there and x stands in none.
fn lacks_next(cells: &[u16], i: usize, n: usize, x: u16) -> bool
    requires { i ≤ length cells.now }
    ensures { result ≡ lacks_next n i x cells.now }
{
    if cells.len() - i < n {
        return false;
    }
    !stands(&cells[i..i + n], x)
}

// The first place of x in cells. 64 are passed at once while x stands in none of them, then 8: at most eight are left to be looked at one by one.
fn find(cells: &[u16], x: u16) -> Option<usize>
    ensures { result ≡ first_in x cells.now }
{
    let mut i = 0;
    while lacks_next(cells, i, 64, x) {
        i += 64;
    }
    while lacks_next(cells, i, 8, x) {
        i += 8;
    }
    for j in i..cells.len() {
        if cells[j] == x {
            return Some(j);
        }
    }
    None
}

// The run from `from` up to `to`, as far as it lies below `used`, once more at `used`: the place behind it, and None where it does not fit.
pub fn append(heap: &mut [u16; 65535], from: usize, to: usize, used: usize) -> Option<usize>
    ensures { fill_answer result heap.new ≡ appended from to used heap.old }
{
    if SIZE < used {
        return None;
    }
    let end = to.min(used);
    let size = end.saturating_sub(from);
    if SIZE - used < size {
        return None;
    }
    // Upwards and by index: the two runs do not overlap, and copy_within would begin with the last cell.
    for i in 0..size {
        heap[used + i] = heap[from + i];
    }
    Some(used + size)
}

// The run with y in the place of each x, at `used`.
fn rename(heap: &mut [u16; 65535], from: usize, end: usize, x: u16, y: u16, used: usize)
    requires { (end ≤ used) × (used + (end - from) ≤ 65535) }
    ensures { heap.new ≡ sets heap.old used (spread x (y ∷ []) (run from end heap.old)) }
{
    let size = end.saturating_sub(from);
    for i in 0..size {
        heap[used + i] = renamed(heap[from + i], x, y);
    }
}

// The run with another run in the place of each x, at `used`: what stands between two of them is copied in one go.
fn fill(
    heap: &mut [u16; 65535],
    from: usize,
    end: usize,
    x: u16,
    vfrom: usize,
    vend: usize,
    used: usize,
)
    requires { (end ≤ used) × (vend ≤ used) × (vfrom ≤ vend) × (used + spread_size x (vend - vfrom) (run from end heap.old) ≤ 65535) }
    ensures { heap.new ≡ sets heap.old used (spread x (run vfrom vend heap.old) (run from end heap.old)) }
{
    let size = vend - vfrom;
    let mut k = used;
    let mut i = from;
    while let Some(n) = find(part(heap, i, end), x) {
        append(heap, i, i + n, k);
        k += n;
        append(heap, vfrom, vend, k);
        k += size;
        i += n + 1;
    }
    append(heap, i, end, k);
}

// The run, in which x stands n times, with the run from `vfrom` up to `vto` in the place of each, at `used`. Where it is over, all stays as it was.
fn append_filled(
    heap: &mut [u16; 65535],
    from: usize,
    end: usize,
    x: u16,
    n: u16,
    vfrom: usize,
    vto: usize,
    used: usize,
) -> Option<usize>
    requires { (end ≤ used) × (used ≤ 65535) × (n ≡ count_in x (run from end heap.old)) }
    ensures { fill_answer result heap.new ≡ appended_filled from end x vfrom vto used heap.old }
{
    let vend = vto.min(used);
    let start = vfrom.min(vend);
    let size = vend - start;
    let all = filled_size(part(heap, from, end), x, n, size);
    if SIZE - used < all {
        return None;
    }
    if size == 1 {
        let y = heap[start];
        rename(heap, from, end, x, y, used);
        return Some(used + all);
    }
    fill(heap, from, end, x, start, vend, used);
    Some(used + all)
}

fn moved_by(w: Option<usize>) -> Replaced
    ensures { result ≡ moved_by w }
{
    match w {
        Some(k) => Replaced::Done(k),
        None => Replaced::Over,
    }
}

// The run, as far as it lies below `used`, with the run from `vfrom` up to `vto` in the place of each x, at `used`; nothing is written where x does not stand
// in it.
pub fn replace(
    heap: &mut [u16; 65535],
    from: usize,
    to: usize,
    x: u16,
    vfrom: usize,
    vto: usize,
    used: usize,
) -> Replaced
    ensures { replace_answer result heap.new ≡ replaced from to x vfrom vto used heap.old }
{
    if SIZE < used {
        return Replaced::Over;
    }
    let end = to.min(used);
    let s = look_through(part(heap, from, end), x);
    let n = s.count;
    if n == 0 {
        return without(s.variables);
    }
    moved_by(append_filled(heap, from, end, x, n, vfrom, vto, used))
}

// A pair of two leaves, at `used`.
pub fn append_pair(heap: &mut [u16; 65535], head: u16, tail: u16, used: usize) -> Option<usize>
    ensures { fill_answer result heap.new ≡ appended_pair head tail used heap.old }
{
    if 65532 < used {
        return None;
    }
    heap[used] = tree::PAIR;
    heap[used + 1] = head;
    heap[used + 2] = tail;
    Some(used + 3)
}
