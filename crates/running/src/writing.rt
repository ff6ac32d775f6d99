// Cells of a value at a place of the answer storage (specs/Twins/Writing.antt).
ghost use Rattle.std.specs.Prelude.{◌≡◌};
ghost use Rattle.sets.specs.Twins.Fill.{fill_answer};
ghost use Rattle.running.specs.Twins.Writing.{cell_put, range_put};

use cells::cell;
use sets::tree;

// A cell at `at`, where there are fewer than `limit`. How many there are then.
pub fn put_cell(x: u16, answer: &mut [u16], at: usize, limit: usize) -> Option<usize>
    ensures { fill_answer result answer.new ≡ cell_put x at limit answer.old }
{
    if limit <= at {
        return None;
    }
    cell::put(answer, at, x);
    Some(at + 1)
}

// The cells of a range at `at`, where there are no more than `limit` then.
pub fn put_range(
    heap: &[u16; 65535],
    from: usize,
    to: usize,
    answer: &mut [u16],
    at: usize,
    limit: usize,
) -> Option<usize>
    ensures { fill_answer result answer.new ≡ range_put from to at limit heap.now answer.old }
{
    let n = to.saturating_sub(from);
    if limit < at || limit - at < n {
        return None;
    }
    tree::copy(heap, from, n, answer, at);
    Some(at + n)
}
