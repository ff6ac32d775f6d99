// The readers of jobs (specs/Twins/Positions.antt).
ghost use Rattle.std.specs.Prelude.{◌≡◌, ◌-◌};
ghost use Rattle.grammar.specs.Twins.Stored.{sides_at, pairs_at, inputs_at, output_at, non_equalities_at, numeral_at, end_at, job_at};

use crate::marks::key;
use crate::readers::{the, tree, word, wrong};
use crate::terms::{left_from, trees};
use refusals::refusal::Refusal;
use words::keys::{
    AVARIABLE, CLOSE, CLOSE_LIST, END, EVARIABLE, IN, JOB, NEQ, OPEN, OPEN_LIST, OUT, PLAIN, STEPS,
    TABLE, WALK,
};

// "`[d d]`"
#[tactic(auto, using(crate::proofs::TextReaders::sides_opens))]
fn sides(marks: &[u16], ats: &[u16], i: usize) -> Result<usize, Refusal>
    ensures { result ≡ sides_at marks.now ats.now i }
{
    let opened = the(marks, ats, OPEN_LIST, i)?;
    let left = tree(marks, ats, EVARIABLE, AVARIABLE, 61, opened)?;
    let right = tree(marks, ats, EVARIABLE, AVARIABLE, 61, left)?;
    the(marks, ats, CLOSE_LIST, right)
}

// Pairs of sides up to the closing bracket.
#[tactic(auto, using(crate::proofs::TextReaders::pairs_end, crate::proofs::TextReaders::pairs_close, crate::proofs::TextReaders::pairs_on))]
fn pairs(marks: &[u16], ats: &[u16], start: usize) -> Result<usize, Refusal>
    ensures { result ≡ pairs_at marks.now ats.now (4097 - start) start }
{
    let mut at = start;
    for _ in 0..left_from(start) {
        if key(marks, at) == CLOSE {
            return Ok(at);
        }
        at = sides(marks, ats, at)?;
    }
    wrong(ats, at)
}

// "`(in d ..)`"
#[tactic(auto, using(crate::proofs::TextReaders::inputs_open))]
fn inputs(marks: &[u16], ats: &[u16], i: usize) -> Result<usize, Refusal>
    ensures { result ≡ inputs_at marks.now ats.now i }
{
    let opened = the(marks, ats, OPEN, i)?;
    let named = the(marks, ats, IN, opened)?;
    let all = trees(marks, ats, CLOSE, EVARIABLE, AVARIABLE, 62, named)?;
    the(marks, ats, CLOSE, all)
}

// "`(out d)`"
#[tactic(auto, using(crate::proofs::TextReaders::output_opens))]
fn output(marks: &[u16], ats: &[u16], i: usize) -> Result<usize, Refusal>
    ensures { result ≡ output_at marks.now ats.now i }
{
    let opened = the(marks, ats, OPEN, i)?;
    let named = the(marks, ats, OUT, opened)?;
    let one = tree(marks, ats, EVARIABLE, AVARIABLE, 62, named)?;
    the(marks, ats, CLOSE, one)
}

// "`(neq [d d] ..)`"
#[tactic(auto, using(crate::proofs::TextReaders::non_equalities_open))]
fn non_equalities(marks: &[u16], ats: &[u16], i: usize) -> Result<usize, Refusal>
    ensures { result ≡ non_equalities_at marks.now ats.now i }
{
    let opened = the(marks, ats, OPEN, i)?;
    let named = the(marks, ats, NEQ, opened)?;
    let all = pairs(marks, ats, named)?;
    the(marks, ats, CLOSE, all)
}

// "`(steps N)`" and its like: the word with this key, and a numeral.
#[tactic(auto, using(crate::proofs::TextReaders::numeral_opens))]
fn numeral(marks: &[u16], ats: &[u16], name: u16, i: usize) -> Result<usize, Refusal>
    ensures { result ≡ numeral_at marks.now ats.now name i }
{
    let opened = the(marks, ats, OPEN, i)?;
    let named = the(marks, ats, name, opened)?;
    let one = word(marks, ats, PLAIN, named)?;
    the(marks, ats, CLOSE, one)
}

// The end of the text, else 3 here.
#[tactic(auto, using(crate::proofs::TextReaders::end_there, crate::proofs::TextReaders::end_missing))]
fn end(marks: &[u16], ats: &[u16], i: usize) -> Result<usize, Refusal>
    ensures { result ≡ end_at marks.now ats.now i }
{
    if key(marks, i) == END {
        return Ok(i);
    }
    wrong(ats, i)
}

// "job: `(job (in d ..) (out d) (neq [d d] ..) (steps N) (walk W) (table T))`"
#[tactic(auto, using(crate::proofs::TextReaders::job_opens))]
pub fn job(marks: &[u16], ats: &[u16]) -> Result<usize, Refusal>
    ensures { result ≡ job_at marks.now ats.now 0 }
{
    let opened = the(marks, ats, OPEN, 0)?;
    let named = the(marks, ats, JOB, opened)?;
    let ins = inputs(marks, ats, named)?;
    let out = output(marks, ats, ins)?;
    let neqs = non_equalities(marks, ats, out)?;
    let steps = numeral(marks, ats, STEPS, neqs)?;
    let walk = numeral(marks, ats, WALK, steps)?;
    let table = numeral(marks, ats, TABLE, walk)?;
    let closed = the(marks, ats, CLOSE, table)?;
    end(marks, ats, closed)
}
