// The check of a program by its tokens: "Program: 6; then 7, 8, 9 at the earliest token" (01, "From the input"), and 13 "after 6 and before 7, 8 and 9"
// (02, request 1). The tokens, n of them, were read without refusal.
ghost use Rattle.std.specs.Prelude.{◌≡◌};
ghost use Rattle.verdicts.specs.Twins.Found.{fine};
ghost use Rattle.checker.specs.Twins.CheckAt.{added, no_defs, no_names};
ghost use Rattle.checker.specs.Twins.CheckStored.{params_at, params_end, params_twice, head_twice, walked_body, def_at, defs_at, body_at, bodies_at, program_at};

use crate::check_terms::{Reach, find, put, term};
use checker::check::{Bodies, Defs, Names, index};
use checker::check_expressions::is_named;
use checker::places::{Tokens, ahead, key, num, offset};
use refusals::refusal::Refusal;
use verdicts::found::{Walked, in_order, judge};
use words::keys::{CLOSE_LIST, END};

// The names of the parameters from `i` on.
#[tactic(auto, using(checker::proofs::CheckOpenings::params_none, checker::proofs::CheckOpenings::params_close, checker::proofs::CheckOpenings::params_put))]
fn params(ts: Tokens, room: usize, i: usize) -> Names
    ensures { result ≡ params_at ts.entry.marks.now ts.entry.n room no_names i }
{
    let mut cells = [0usize; 144];
    let mut used: usize = 0;
    let mut at = i;
    for _ in 0..room {
        if key(ts.marks, ts.n, at) == CLOSE_LIST {
            return Names { cells, used };
        }
        used = put(&mut cells, used, at);
        at = ahead(ts.n, 1, at);
    }
    Names { cells, used }
}

// The index of the bracket that closes them.
#[tactic(auto, using(checker::proofs::CheckOpenings::end_none, checker::proofs::CheckOpenings::end_close, checker::proofs::CheckOpenings::end_on))]
fn params_end(ts: Tokens, room: usize, i: usize) -> usize
    ensures { result ≡ params_end ts.entry.marks.now ts.entry.n room i }
{
    let mut at = i;
    for _ in 0..room {
        if key(ts.marks, ts.n, at) == CLOSE_LIST {
            return at;
        }
        at = ahead(ts.n, 1, at);
    }
    at
}

// "6 ... a parameter defined twice".
#[tactic(auto, using(checker::proofs::CheckOpenings::twice_none, checker::proofs::CheckOpenings::twice_close, checker::proofs::CheckOpenings::twice_here, checker::proofs::CheckOpenings::twice_put))]
fn params_twice(ts: Tokens, room: usize, i: usize) -> Result<(), Refusal>
    ensures { result ≡ params_twice ts.entry.marks.now ts.entry.nums.now ts.entry.ats.now ts.entry.n room no_names i }
{
    let mut cells = [0usize; 144];
    let mut used: usize = 0;
    let mut at = i;
    for _ in 0..room {
        if key(ts.marks, ts.n, at) == CLOSE_LIST {
            return Ok(());
        }
        if is_named(ts, &cells, used, at) {
            return Err(Refusal {
                number: 6,
                offset: offset(ts.ats, ts.n, at),
            });
        }
        used = put(&mut cells, used, at);
        at = ahead(ts.n, 1, at);
    }
    Ok(())
}

// One definition more, whose name stands at `h` and which ends before `k`.
fn add(ds: Defs, h: usize, k: usize, v: Result<(), Refusal>) -> Defs
    ensures { result ≡ added ds h k v }
{
    let count = ds.count;
    if count < 64 {
        let mut heads = ds.heads;
        heads[count] = h;
        return Defs {
            heads,
            count: count + 1,
            past: k,
            names: ds.names.and(v),
        };
    }
    ds
}

// Whether the function whose name stands at `h` is defined before.
fn head_twice(ts: Tokens, heads: &[usize], count: usize, h: usize) -> Result<(), Refusal>
    ensures { result ≡ head_twice ts.entry.nums.now ts.entry.ats.now ts.entry.n heads.now count h }
{
    let g = find(ts, heads, count, num(ts.nums, ts.n, h));
    judge(count <= g, 6, offset(ts.ats, ts.n, h))
}

// The body of the definition that starts at `i`, for 6.
fn walked_body(ts: Tokens, heads: &[usize], i: usize) -> Walked
    ensures { result ≡ walked_body ts.entry.marks.now ts.entry.nums.now ts.entry.ats.now ts.entry.n heads.now i }
{
    let start = ahead(ts.n, 1, params_end(ts, 16, ahead(ts.n, 4, i)));
    let mut cells = [0usize; 144];
    let reach = Reach { room: 63, used: 0 };
    term(ts, heads, 0, reach, &mut cells, start)
}

// One definition more: "6 a function or a parameter defined twice; equal names in one `cons?`".
fn def(ts: Tokens, ds: Defs) -> Defs
    ensures { result ≡ def_at ts.entry.marks.now ts.entry.nums.now ts.entry.ats.now ts.entry.n ds }
{
    let i = ds.past;
    let h = ahead(ts.n, 2, i);
    let t = walked_body(ts, &ds.heads, i);
    let new = head_twice(ts, &ds.heads, ds.count, h);
    let twice = params_twice(ts, 16, ahead(ts.n, 4, i));
    add(ds, h, ahead(ts.n, 1, t.past), new.and(twice.and(t.names)))
}

// Definitions up to the end.
#[tactic(auto, using(checker::proofs::CheckOpenings::defs_none, checker::proofs::CheckOpenings::defs_end, checker::proofs::CheckOpenings::defs_on))]
fn defs(ts: Tokens, left: usize, ds: Defs) -> Defs
    ensures { result ≡ defs_at ts.entry.marks.now ts.entry.nums.now ts.entry.ats.now ts.entry.n left ds }
{
    let mut all = ds;
    for _ in 0..left {
        if key(ts.marks, ts.n, all.past) == END {
            return all;
        }
        all = def(ts, all);
    }
    all
}

fn no_defs() -> Defs
    ensures { result ≡ no_defs }
{
    Defs {
        heads: [0usize; 64],
        count: 0,
        past: 0,
        names: Ok(()),
    }
}

// The definitions of a program, each by the index of its name, and the first fault of 6.
pub fn definitions(marks: &[u16], nums: &[u16], ats: &[u16], n: usize) -> Defs
    ensures { result ≡ defs_at marks.now nums.now ats.now n 64 no_defs }
{
    let ts = Tokens {
        marks,
        nums,
        ats,
        n,
    };
    defs(ts, 64, no_defs())
}

// The body of the definition whose name stands at `h`, with its parameters in reach, for 13 and 7, 8, 9.
fn body(ts: Tokens, heads: &[usize], count: usize, h: usize) -> Walked
    ensures { result ≡ body_at ts.entry.marks.now ts.entry.nums.now ts.entry.ats.now ts.entry.n heads.now count h }
{
    let p = ahead(ts.n, 2, h);
    let start = ahead(ts.n, 1, params_end(ts, 16, p));
    let Names { mut cells, used } = params(ts, 16, p);
    let reach = Reach { room: 63, used };
    term(ts, heads, count, reach, &mut cells, start)
}

// And those of all definitions. All are walked: a 13 comes before the 7, 8 or 9 of an earlier body.
#[tactic(auto, using(checker::proofs::CheckOpenings::bodies_none, checker::proofs::CheckOpenings::bodies_more))]
fn bodies(ts: Tokens, heads: &[usize], count: usize) -> Bodies
    ensures { result ≡ bodies_at ts.entry.marks.now ts.entry.nums.now ts.entry.ats.now ts.entry.n heads.now count count 0 fine fine }
{
    let mut rebound: Result<(), Refusal> = Ok(());
    let mut uses: Result<(), Refusal> = Ok(());
    for j in 0..count {
        let t = body(ts, heads, count, index(heads, j));
        rebound = rebound.and(t.rebound);
        uses = uses.and(t.uses);
    }
    Bodies { rebound, uses }
}

// The first fault of a program.
pub fn check_program(marks: &[u16], nums: &[u16], ats: &[u16], n: usize) -> Result<(), Refusal>
    ensures { result ≡ program_at marks.now nums.now ats.now n }
{
    let ds = definitions(marks, nums, ats, n);
    let ts = Tokens {
        marks,
        nums,
        ats,
        n,
    };
    let found = bodies(ts, &ds.heads, ds.count);
    in_order(ds.names, found.rebound, found.uses)
}
