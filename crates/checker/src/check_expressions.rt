// The check of expressions by their tokens: 8 and 9 (01, "From the input"), and of the names that a `cons?` binds: 6 and 13 (02, request 1).
// `cells`, `used` of them, are the names in reach.
ghost use Rattle.std.specs.Prelude.{◌≡◌, true};
ghost use Rattle.verdicts.specs.Twins.Found.{fine};
ghost use Rattle.checker.specs.Twins.CheckStored.{same_name, is_named, new_at, binding_at, leaf_at, exp_at, pair_at, atomic_at, ea_at, arg_at, args_at};

use crate::check::index;
use crate::places::{Tokens, ahead, key, kind, num, offset};
use refusals::refusal::Refusal;
use verdicts::found::{Args, Walked, judge, uses_only};
use verdicts::names::{bound, bound_twice, is_atomic, is_same, used_name};
use words::keys::{ANAME, CLOSE_LIST, OPEN, SYMBOL};

// "`e.x` and `a.x` are two variables."
fn same_name(ts: Tokens, i: usize, j: usize) -> bool
    ensures { result ≡ same_name ts.entry.marks.now ts.entry.nums.now ts.entry.n i j }
{
    is_same(
        kind(ts.marks, ts.n, i),
        num(ts.nums, ts.n, i),
        kind(ts.marks, ts.n, j),
        num(ts.nums, ts.n, j),
    )
}

// Whether the name at `i` is among the first `used` of `cells`: looked for from the one bound last on, which is asked for most.
pub fn is_named(ts: Tokens, cells: &[usize], used: usize, i: usize) -> bool
    ensures { result ≡ is_named ts.entry.marks.now ts.entry.nums.now ts.entry.n cells.now used i }
{
    for k in (0..used).rev() {
        if same_name(ts, index(cells, k), i) {
            return true;
        }
    }
    false
}

// "A name .. that a `cons?` binds may no longer be one already in reach": 13 at the name at `i` (02, request 1).
fn new_name(ts: Tokens, cells: &[usize], used: usize, i: usize) -> Result<(), Refusal>
    ensures { result ≡ new_at ts.entry.marks.now ts.entry.nums.now ts.entry.ats.now ts.entry.n cells.now used i }
{
    let reached = is_named(ts, cells, used, i);
    bound(reached, offset(ts.ats, ts.n, i))
}

// What is found of a `cons?` whose e comes to `c` and ends before its three names: "6 .. equal names in one `cons?`", then 13.
#[tactic(auto, unfolding(crate::specs::Twins::CheckAt::binding_at))]
pub fn binding(ts: Tokens, cells: &[usize], used: usize, c: Walked) -> Walked
    ensures { result ≡ binding_at ts.entry.marks.now ts.entry.nums.now ts.entry.ats.now ts.entry.n cells.now used c }
{
    let h = c.past;
    let t = ahead(ts.n, 1, h);
    let x = ahead(ts.n, 2, h);
    let twice = bound_twice(
        num(ts.nums, ts.n, h),
        num(ts.nums, ts.n, t),
        offset(ts.ats, ts.n, t),
    );
    let head = new_name(ts, cells, used, h);
    let tail = new_name(ts, cells, used, t);
    let atom = new_name(ts, cells, used, x);
    Walked {
        past: h,
        names: twice,
        rebound: head.and(tail.and(atom)),
        uses: c.uses,
    }
}

// An e of one token: "9 variable not in reach".
#[inline(always)]
pub fn leaf(ts: Tokens, cells: &[usize], used: usize, i: usize) -> Walked
    ensures { result ≡ leaf_at ts.entry.marks.now ts.entry.nums.now ts.entry.ats.now ts.entry.n cells.now used i }
{
    let past = ahead(ts.n, 1, i);
    if kind(ts.marks, ts.n, i) == SYMBOL {
        return uses_only(past, Ok(()));
    }
    let reached = is_named(ts, cells, used, i);
    uses_only(past, used_name(reached, offset(ts.ats, ts.n, i)))
}

// An e: "`(cons e e)`, xe or ea".
#[tactic(auto, using(crate::proofs::CheckOpenings::exp_none, crate::proofs::CheckOpenings::exp_pair, crate::proofs::CheckOpenings::exp_leaf))]
#[cycle(exp_pair)]
pub fn exp(ts: Tokens, room: usize, cells: &[usize], used: usize, i: usize) -> Walked
    ensures { result ≡ exp_at ts.entry.marks.now ts.entry.nums.now ts.entry.ats.now ts.entry.n room cells.now used i }
{
    if room == 0 {
        return leaf(ts, cells, used, i);
    }
    if key(ts.marks, ts.n, i) == OPEN {
        return pair(ts, room - 1, cells, used, i);
    }
    leaf(ts, cells, used, i)
}

// "`(cons e e)`". Inlined, so that a bracket takes one frame of the stack.
#[cycle(exp_pair)]
#[inline(always)]
pub fn pair(ts: Tokens, room: usize, cells: &[usize], used: usize, i: usize) -> Walked
    ensures { result ≡ pair_at ts.entry.marks.now ts.entry.nums.now ts.entry.ats.now ts.entry.n room cells.now used i }
{
    let c = exp(ts, room, cells, used, ahead(ts.n, 2, i));
    let d = exp(ts, room, cells, used, c.past);
    uses_only(ahead(ts.n, 1, d.past), c.uses.and(d.uses))
}

fn atomic(ts: Tokens, i: usize) -> bool
    ensures { result ≡ atomic_at ts.entry.marks.now ts.entry.n i }
{
    is_atomic(key(ts.marks, ts.n, i), kind(ts.marks, ts.n, i))
}

// "8 not atomic where an ea is due", then 9.
#[tactic(auto, unfolding(crate::specs::Twins::CheckAt::ea_at))]
pub fn ea(ts: Tokens, room: usize, cells: &[usize], used: usize, i: usize) -> Walked
    ensures { result ≡ ea_at ts.entry.marks.now ts.entry.nums.now ts.entry.ats.now ts.entry.n room cells.now used i }
{
    let c = exp(ts, room, cells, used, i);
    let v = judge(atomic(ts, i), 8, offset(ts.ats, ts.n, i));
    uses_only(c.past, v.and(c.uses))
}

// "A parameter `a.NAME` takes only an ea": the parameter stands at `p`, the argument at `i`.
fn arg(ts: Tokens, room: usize, cells: &[usize], used: usize, p: usize, i: usize) -> Walked
    ensures { result ≡ arg_at ts.entry.marks.now ts.entry.nums.now ts.entry.ats.now ts.entry.n room cells.now used p i }
{
    if kind(ts.marks, ts.n, p) == ANAME {
        return ea(ts, room, cells, used, i);
    }
    exp(ts, room, cells, used, i)
}

// The arguments from `i` on, the parameters from `p` on; none takes less than a token, so that n turns are enough.
#[tactic(auto, using(crate::proofs::CheckOpenings::args_none, crate::proofs::CheckOpenings::args_close, crate::proofs::CheckOpenings::args_on))]
pub fn args(ts: Tokens, room: usize, cells: &[usize], used: usize, p: usize, i: usize) -> Args
    ensures { result ≡ args_at ts.entry.marks.now ts.entry.nums.now ts.entry.ats.now ts.entry.n ts.entry.n room cells.now used p true fine i }
{
    let mut param = p;
    let mut as_many = true;
    let mut fault: Result<(), Refusal> = Ok(());
    let mut at = i;
    for _ in 0..ts.n {
        let closes = key(ts.marks, ts.n, param) == CLOSE_LIST;
        if key(ts.marks, ts.n, at) == CLOSE_LIST {
            return Args {
                past: at,
                fits: as_many && closes,
                uses: fault,
            };
        }
        let c = arg(ts, room, cells, used, param, at);
        param = ahead(ts.n, 1, param);
        as_many = as_many && !closes;
        fault = fault.and(c.uses);
        at = c.past;
    }
    Args {
        past: at,
        fits: false,
        uses: fault,
    }
}
