// The check of terms by their tokens: 6 and 13 in `cons?`, 7, 8, 9 (01, "From the input"; 02, request 1). `heads`, `count` of them, are the definitions, each by
// the index of its name; `cells`, `used` of them, are the names in reach. A branch writes its own behind these, and keeps these.
ghost use Rattle.std.specs.Prelude.{◌≡◌};
ghost use Rattle.checker.specs.Twins.CheckAt.{names, Kept, Put};
ghost use Rattle.checker.specs.Twins.CheckStored.{place_at, call_at, term_at, eqa_at, consp_at};

use checker::check::index;
use checker::check_expressions::{args, binding, ea, exp, leaf, pair};
use checker::places::{Tokens, ahead, key, num, offset};
use verdicts::found::{Walked, branched, called, judge, uses_only};
use words::keys::{CALL, EQA, IF, OPEN};

// How many more brackets may be opened, and how many names are in reach.
#[derive(Clone, Copy)]
pub(crate) struct Reach {
    pub room: usize,
    pub used: usize,
}

// One name more, in cells that are lent: how many are used then.
pub(crate) fn put(cells: &mut [usize; 144], used: usize, x: usize) -> usize
    ensures { Put cells.old used x cells.new result }
{
    if used < 144 {
        cells[used] = x;
        return used + 1;
    }
    used
}

// The number of the function with the name `x`: `count` where there is none.
#[tactic(auto, using(checker::proofs::CheckOpenings::place_none, checker::proofs::CheckOpenings::place_here, checker::proofs::CheckOpenings::place_on))]
pub(crate) fn find(ts: Tokens, heads: &[usize], count: usize, x: u16) -> usize
    ensures { result ≡ place_at ts.entry.nums.now ts.entry.n heads.now count 0 x }
{
    for at in 0..count {
        let h = index(heads, at);
        if num(ts.nums, ts.n, h) == x {
            return at;
        }
    }
    count
}

// "`(call F [e ..])`": "7 call of an unknown function, or a wrong number of arguments".
fn call(
    ts: Tokens,
    heads: &[usize],
    count: usize,
    reach: Reach,
    cells: &[usize],
    i: usize,
) -> Walked
    ensures { result ≡ call_at ts.entry.marks.now ts.entry.nums.now ts.entry.ats.now ts.entry.n heads.now count reach.room cells.now reach.used i }
{
    let f = ahead(ts.n, 2, i);
    let g = find(ts, heads, count, num(ts.nums, ts.n, f));
    let p = ahead(ts.n, 2, index(heads, g));
    let start = ahead(ts.n, 4, i);
    let c = args(ts, reach.room, cells, reach.used, p, start);
    let v = judge(g < count && c.fits, 7, offset(ts.ats, ts.n, f));
    called(ahead(ts.n, 2, c.past), v, c.uses)
}

// "`(if (eqa? ea ea) t t)`", behind whose bracket `room` brackets may be opened.
#[cycle(consp_eqa_term)]
fn eqa(
    ts: Tokens,
    heads: &[usize],
    count: usize,
    reach: Reach,
    cells: &mut [usize; 144],
    i: usize,
) -> Walked
    ensures { (result ≡ eqa_at ts.entry.marks.now ts.entry.nums.now ts.entry.ats.now ts.entry.n heads.now count reach.room (names cells.old reach.used) i) × Kept reach.used cells.old cells.new }
{
    let Reach { room, used } = reach;
    let c = ea(ts, room, cells, used, ahead(ts.n, 4, i));
    let d = ea(ts, room, cells, used, c.past);
    let asked = uses_only(d.past, c.uses.and(d.uses));
    let start = ahead(ts.n, 1, d.past);
    let s = term(ts, heads, count, reach, cells, start);
    let u = term(ts, heads, count, reach, cells, s.past);
    branched(ahead(ts.n, 1, u.past), asked, s, u)
}

// "`(if (cons? e xe xe xa) t t)`": "The true branch of `cons?` has its two xe, the false branch its xa, neither the other's."
#[cycle(consp_eqa_term)]
fn consp(
    ts: Tokens,
    heads: &[usize],
    count: usize,
    reach: Reach,
    cells: &mut [usize; 144],
    i: usize,
) -> Walked
    ensures { (result ≡ consp_at ts.entry.marks.now ts.entry.nums.now ts.entry.ats.now ts.entry.n heads.now count reach.room (names cells.old reach.used) i) × Kept reach.used cells.old cells.new }
{
    let Reach { room, used } = reach;
    let c = exp(ts, room, cells, used, ahead(ts.n, 4, i));
    let h = c.past;
    let t = ahead(ts.n, 1, h);
    let x = ahead(ts.n, 2, h);
    let asked = binding(ts, cells, used, c);
    let one = put(cells, used, h);
    let two = put(cells, one, t);
    let start = ahead(ts.n, 4, h);
    let on_true = Reach { room, used: two };
    let s = term(ts, heads, count, on_true, cells, start);
    let other = put(cells, used, x);
    let on_false = Reach { room, used: other };
    let u = term(ts, heads, count, on_false, cells, s.past);
    branched(ahead(ts.n, 1, u.past), asked, s, u)
}

// A t: "`(call F [e ..])`, `(if k t t)` or e".
#[cycle(consp_eqa_term)]
pub(crate) fn term(
    ts: Tokens,
    heads: &[usize],
    count: usize,
    reach: Reach,
    cells: &mut [usize; 144],
    i: usize,
) -> Walked
    ensures { (result ≡ term_at ts.entry.marks.now ts.entry.nums.now ts.entry.ats.now ts.entry.n heads.now count reach.room (names cells.old reach.used) i) × Kept reach.used cells.old cells.new }
{
    let Reach { room, used } = reach;
    if room == 0 {
        return leaf(ts, cells, used, i);
    }
    if key(ts.marks, ts.n, i) == OPEN {
        let less = room - 1;
        let inner = Reach { room: less, used };
        let form = key(ts.marks, ts.n, ahead(ts.n, 1, i));
        if form == CALL {
            return call(ts, heads, count, inner, cells, i);
        }
        if form == IF {
            if key(ts.marks, ts.n, ahead(ts.n, 3, i)) == EQA {
                return eqa(ts, heads, count, inner, cells, i);
            }
            return consp(ts, heads, count, inner, cells, i);
        }
        return pair(ts, less, cells, used, i);
    }
    leaf(ts, cells, used, i)
}
