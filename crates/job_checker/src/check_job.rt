// The check of a job by its tokens: "Job: 10, 11, 12" (01, "From the input"). The tokens, n of the job and m of the program before it, were
// read without refusal; `main` holds the marks of the program's, `runs` is whether the tool is the runner.
ghost use Rattle.std.specs.Prelude.{◌≡◌, ◌-◌, true, false};
ghost use Rattle.verdicts.specs.Twins.Found.{fine};
ghost use Rattle.job_checker.specs.Twins.JobStored.{numeral_from, datum_leaf, datum_at, atomic_at, input_at, inputs_at, marked_from, side_at, two_sides, sides_at, bounds_at, tens_at, elevens_at, job_at};

use bounds::job::{is_steps, is_table, is_walk};
use cells::cell::{byte, cell, put};
use checker::places::{Tokens, ahead, key, kind, num, offset};
use refusals::refusal::Refusal;
use verdicts::found::{Args, Walked, judge, uses_only};
use verdicts::names::is_side;
use words::keys::{ANAME, AVARIABLE, CLOSE, CLOSE_LIST, EVARIABLE, OPEN, SYMBOL};

// "in the runner, any variable in an input (offset: the variable)".
fn datum_leaf(ts: Tokens, runs: bool, i: usize) -> Walked
    ensures { result ≡ datum_leaf ts.entry.marks.now ts.entry.ats.now ts.entry.n runs i }
{
    let passes = kind(ts.marks, ts.n, i) == SYMBOL || !runs;
    uses_only(
        ahead(ts.n, 1, i),
        judge(passes, 10, offset(ts.ats, ts.n, i)),
    )
}

// A d: "`(cons d d)`, `'Z`, `?eK` or `?aK`".
#[tactic(auto, using(crate::proofs::JobOpenings::datum_none, crate::proofs::JobOpenings::datum_pair_at, crate::proofs::JobOpenings::datum_leaf_at))]
fn datum(ts: Tokens, runs: bool, room: usize, i: usize) -> Walked
    ensures { result ≡ datum_at ts.entry.marks.now ts.entry.ats.now ts.entry.n runs room i }
{
    if room == 0 {
        return datum_leaf(ts, runs, i);
    }
    if key(ts.marks, ts.n, i) == OPEN {
        let c = datum(ts, runs, room - 1, ahead(ts.n, 2, i));
        let d = datum(ts, runs, room - 1, c.past);
        return uses_only(ahead(ts.n, 1, d.past), c.uses.and(d.uses));
    }
    datum_leaf(ts, runs, i)
}

fn atomic(ts: Tokens, i: usize) -> bool
    ensures { result ≡ atomic_at ts.entry.marks.now ts.entry.n i }
{
    key(ts.marks, ts.n, i) != OPEN && kind(ts.marks, ts.n, i) != EVARIABLE
}

// "10 job inputs unlike main's parameters in ... kind": the parameter stands at `p`, the input at `i`.
#[tactic(auto, unfolding(crate::specs::Twins::JobCheckAt::input_at))]
fn input(ts: Tokens, runs: bool, main: &[u16], m: usize, p: usize, i: usize) -> Walked
    ensures { result ≡ input_at ts.entry.marks.now ts.entry.ats.now ts.entry.n runs main.now m p i }
{
    let c = datum(ts, runs, 62, i);
    let passes = kind(main, m, p) != ANAME || atomic(ts, i);
    let v = judge(passes, 10, offset(ts.ats, ts.n, i));
    uses_only(c.past, v.and(c.uses))
}

// The inputs from `i` on, the parameters from `p` on; none takes less than a token, so that n turns are enough.
#[tactic(auto, using(crate::proofs::JobOpenings::inputs_none, crate::proofs::JobOpenings::inputs_close, crate::proofs::JobOpenings::inputs_on))]
fn inputs(ts: Tokens, runs: bool, main: &[u16], m: usize, p: usize, i: usize) -> Args
    ensures { result ≡ inputs_at ts.entry.marks.now ts.entry.ats.now ts.entry.n runs main.now m ts.entry.n p true fine i }
{
    let mut param = p;
    let mut as_many = true;
    let mut fault: Result<(), Refusal> = Ok(());
    let mut at = i;
    for _ in 0..ts.n {
        let closes = key(main, m, param) == CLOSE_LIST;
        if key(ts.marks, ts.n, at) == CLOSE {
            return Args {
                past: at,
                fits: as_many && closes,
                uses: fault,
            };
        }
        let c = input(ts, runs, main, m, param, at);
        param = ahead(m, 1, param);
        as_many = as_many && !closes;
        fault = fault.and(c.uses);
        at = c.past;
    }
    Args {
        past: at,
        fits: false,
        uses: fault,
    }
}

// Stores 1 in the cell of each `?aK` that stands from `j` to before `end`: one pass, so that no side is searched for.
#[tactic(auto, using(crate::proofs::JobOpenings::marked_none, crate::proofs::JobOpenings::marked_here, crate::proofs::JobOpenings::marked_on))]
fn mark_variables(ts: Tokens, end: usize, j: usize, marked: &mut [u16])
    ensures { marked.new ≡ marked_from ts.entry.marks.now ts.entry.nums.now ts.entry.n (end - j) j marked.old }
{
    for at in j..end {
        if kind(ts.marks, ts.n, at) == AVARIABLE {
            put(marked, num(ts.nums, ts.n, at) as usize, 1);
        }
    }
}

// "11 a `neq` side not atomic, or its `?a` in neither input nor output": those that stand there are marked.
fn side(ts: Tokens, marked: &[u16], i: usize) -> bool
    ensures { result ≡ side_at ts.entry.marks.now ts.entry.nums.now ts.entry.n marked.now i }
{
    let there = cell(marked, num(ts.nums, ts.n, i) as usize);
    is_side(atomic(ts, i), kind(ts.marks, ts.n, i), there)
}

// The two sides of a non-equality.
fn two_sides(ts: Tokens, runs: bool, marked: &[u16], i: usize) -> Walked
    ensures { result ≡ two_sides ts.entry.marks.now ts.entry.nums.now ts.entry.ats.now ts.entry.n runs marked.now i }
{
    let d = datum(ts, runs, 61, i).past;
    let last = datum(ts, runs, 61, d).past;
    let u = judge(side(ts, marked, i), 11, offset(ts.ats, ts.n, i));
    let v = judge(side(ts, marked, d), 11, offset(ts.ats, ts.n, d));
    uses_only(ahead(ts.n, 1, last), u.and(v))
}

// The non-equalities from `i` on; `uses` is the first fault so far.
#[tactic(auto, using(crate::proofs::JobOpenings::sides_none, crate::proofs::JobOpenings::sides_close, crate::proofs::JobOpenings::sides_on))]
fn sides(
    ts: Tokens,
    runs: bool,
    fuel: usize,
    marked: &[u16],
    uses: Result<(), Refusal>,
    i: usize,
) -> Walked
    ensures { result ≡ sides_at ts.entry.marks.now ts.entry.nums.now ts.entry.ats.now ts.entry.n runs fuel marked.now uses i }
{
    let mut fault = uses;
    let mut at = i;
    for _ in 0..fuel {
        if key(ts.marks, ts.n, at) == CLOSE {
            return uses_only(at, fault);
        }
        let c = two_sides(ts, runs, marked, ahead(ts.n, 1, at));
        fault = fault.and(c.uses);
        at = c.past;
    }
    uses_only(at, fault)
}

// A numeral of the text from `i` on, `left` digits at most; `v` is what the digits before come to.
#[tactic(auto, using(crate::proofs::JobOpenings::numeral_none, crate::proofs::JobOpenings::numeral_below, crate::proofs::JobOpenings::numeral_above, crate::proofs::JobOpenings::numeral_large, crate::proofs::JobOpenings::numeral_on))]
pub fn numeral(text: &[u8], left: usize, i: usize, v: usize) -> usize
    ensures { result ≡ numeral_from text.now left i v }
{
    let mut at = i;
    let mut value = v;
    for _ in 0..left {
        let b = byte(text, at);
        if b < 48 || 57 < b || 1000000 <= value {
            return value;
        }
        at = ahead(text.len(), 1, at);
        value = 10 * value + (b - 48) as usize;
    }
    value
}

// "N is 0 to 1,000, W 0 to 1,000,000, T 0 to 256"; the non-equalities end at `c`.
fn bounds(ts: Tokens, text: &[u8], c: usize) -> Result<(), Refusal>
    ensures { result ≡ bounds_at ts.entry.ats.now ts.entry.n text.now c }
{
    let steps = offset(ts.ats, ts.n, ahead(ts.n, 3, c));
    let walk = offset(ts.ats, ts.n, ahead(ts.n, 7, c));
    let table = offset(ts.ats, ts.n, ahead(ts.n, 11, c));
    let u = judge(is_steps(numeral(text, 7, steps, 0)), 12, steps);
    let v = judge(is_walk(numeral(text, 7, walk, 0)), 12, walk);
    let w = judge(is_table(numeral(text, 7, table, 0)), 12, table);
    u.and(v.and(w))
}

// 10 whole: "in number (offset: `in`) or kind"; main's parameters start at `p`.
#[tactic(auto, unfolding(crate::specs::Twins::JobCheckAt::tens_at))]
fn tens(ts: Tokens, runs: bool, main: &[u16], m: usize, p: usize) -> Walked
    ensures { result ≡ tens_at ts.entry.marks.now ts.entry.ats.now ts.entry.n runs main.now m p }
{
    let ins = inputs(ts, runs, main, m, p, 4);
    let v = judge(ins.fits, 10, offset(ts.ats, ts.n, 3));
    uses_only(ins.past, v.and(ins.uses))
}

// 11 whole: the inputs end at `a`. "K is 1 to 999", so that each `?aK` has its cell.
fn elevens(ts: Tokens, runs: bool, a: usize) -> Walked
    ensures { result ≡ elevens_at ts.entry.marks.now ts.entry.nums.now ts.entry.ats.now ts.entry.n runs a }
{
    let end = datum(ts, runs, 62, ahead(ts.n, 3, a)).past;
    let mut marked: [u16; 1000] = [0; 1000];
    mark_variables(ts, end, 4, &mut marked);
    sides(ts, runs, ts.n, &marked, Ok(()), ahead(ts.n, 3, end))
}

// The first fault of a job.
#[tactic(auto, unfolding(crate::specs::Twins::JobCheckAt::job_at))]
pub fn check_job(
    marks: &[u16],
    nums: &[u16],
    ats: &[u16],
    n: usize,
    text: &[u8],
    main: &[u16],
    m: usize,
    runs: bool,
) -> Result<(), Refusal>
    ensures { result ≡ job_at marks.now nums.now ats.now n runs text.now main.now m }
{
    let ts = Tokens {
        marks,
        nums,
        ats,
        n,
    };
    let ins = tens(ts, runs, main, m, 4);
    let qs = elevens(ts, runs, ins.past);
    ins.uses.and(qs.uses.and(bounds(ts, text, qs.past)))
}
