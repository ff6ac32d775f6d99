// Where what starts at a token ends, by the brackets (specs/Twins/Ends.antt): for who skips a branch.
ghost use Rattle.std.specs.Prelude.{◌≡◌, ◌-◌};
ghost use Rattle.checker.specs.Twins.StoredAt.{key_at};
ghost use Rattle.syntax.specs.Twins.Ends.{opens, closes, close_from, past_at, ends_from};

use brackets::depth::is_outermost;
use cells::cell::{low, put};
use checker::places::key;
use words::keys::{CLOSE, CLOSE_LIST, OPEN, OPEN_LIST};

fn is_open(marks: &[u16], n: usize, i: usize) -> bool
    ensures { result ≡ opens (key_at marks.now n) i }
{
    let k = key(marks, n, i);
    k == OPEN || k == OPEN_LIST
}

fn is_close(marks: &[u16], n: usize, i: usize) -> bool
    ensures { result ≡ closes (key_at marks.now n) i }
{
    let k = key(marks, n, i);
    k == CLOSE || k == CLOSE_LIST
}

// The index past the bracket that closes what opens at `from`, n at most.
#[tactic(auto, using(crate::proofs::PartOpenings::close_end))]
fn close_from(marks: &[u16], n: usize, from: usize) -> usize
    ensures { result ≡ close_from (key_at marks.now n) (n - from) 0 from }
{
    let mut depth: usize = 0;
    for i in from..n {
        if is_open(marks, n, i) {
            depth += 1;
        } else if is_close(marks, n, i) {
            if is_outermost(depth) {
                return i + 1;
            }
            depth -= 1;
        }
    }
    from.max(n)
}

// The index past what starts at `i`: a token, or a bracket with what stands in it.
pub fn past(marks: &[u16], n: usize, i: usize) -> usize
    ensures { result ≡ past_at (key_at marks.now n) n i }
{
    if n <= i {
        return n;
    }
    if key(marks, n, i) == OPEN {
        return close_from(marks, n, i);
    }
    i + 1
}

// Stores for each token the index past what starts there.
#[tactic(auto, using(crate::proofs::PartOpenings::ends_none, crate::proofs::PartOpenings::ends_more))]
pub fn mark_ends(marks: &[u16], n: usize, ends: &mut [u16])
    ensures { ends.new ≡ ends_from (key_at marks.now n) n n 0 ends.old }
{
    for i in 0..n {
        put(ends, i, low(past(marks, n, i)));
    }
}
