// The readers of terms (specs/Twins/Positions.antt): t and its `if` read each other, and each bracket takes one from the room for them.
ghost use Rattle.std.specs.Prelude.{◌≡◌, ◌-◌};
ghost use Rattle.grammar.specs.Twins.Stored.{tree_at, trees_at, args_at, test_at, condition_at, call_at, conditional_at, pair_at, term_at};

use crate::marks::key;
use crate::readers::{leaf, the, the_in, tree, word, wrong};
use refusals::refusal::Refusal;
use words::keys::{
    ANAME, CALL, CLOSE, CLOSE_LIST, CONS, ENAME, EQA, IF, IS_CONS, OPEN, OPEN_LIST, PLAIN,
};

// How many tokens may stand from `i` on: 4,097 are stored at most.
pub(crate) fn left_from(i: usize) -> usize
    ensures { result ≡ 4097 - i }
{
    if i < 4097 { 4097 - i } else { 0 }
}

// Trees up to a closing bracket.
#[tactic(auto, using(crate::proofs::TermReaders::trees_end, crate::proofs::TermReaders::trees_close, crate::proofs::TermReaders::trees_on))]
pub(crate) fn trees(
    marks: &[u16],
    ats: &[u16],
    close: u16,
    evar: u16,
    avar: u16,
    room: usize,
    start: usize,
) -> Result<usize, Refusal>
    ensures { result ≡ trees_at marks.now ats.now close evar avar room (4097 - start) start }
{
    let mut at = start;
    for _ in 0..left_from(start) {
        if key(marks, at) == close {
            return Ok(at);
        }
        at = tree(marks, ats, evar, avar, room, at)?;
    }
    wrong(ats, at)
}

// "`[e ..]`"
#[tactic(auto, using(crate::proofs::TermReaders::args_shut, crate::proofs::TermReaders::args_more))]
fn args(marks: &[u16], ats: &[u16], room: usize, i: usize) -> Result<usize, Refusal>
    ensures { result ≡ args_at marks.now ats.now room i }
{
    if room == 0 {
        let shut = the_in(marks, ats, 0, OPEN_LIST, i)?;
        return wrong(ats, shut);
    }
    let inside = the(marks, ats, OPEN_LIST, i)?;
    let all = trees(marks, ats, CLOSE_LIST, ENAME, ANAME, room - 1, inside)?;
    the(marks, ats, CLOSE_LIST, all)
}

// What stands in the brackets of k: `eqa? ea ea` or `cons? e xe xe xa`.
#[tactic(auto, using(crate::proofs::TermReaders::test_eqa, crate::proofs::TermReaders::test_cons))]
fn test(marks: &[u16], ats: &[u16], room: usize, i: usize) -> Result<usize, Refusal>
    ensures { result ≡ test_at marks.now ats.now room i }
{
    if key(marks, i) == EQA {
        let named = the(marks, ats, EQA, i)?;
        let left = tree(marks, ats, ENAME, ANAME, room, named)?;
        return tree(marks, ats, ENAME, ANAME, room, left);
    }
    let named = the(marks, ats, IS_CONS, i)?;
    let tested = tree(marks, ats, ENAME, ANAME, room, named)?;
    let head = word(marks, ats, ENAME, tested)?;
    let tail = word(marks, ats, ENAME, head)?;
    word(marks, ats, ANAME, tail)
}

// "k: `(eqa? ea ea)` or `(cons? e xe xe xa)`"
#[tactic(auto, using(crate::proofs::TermReaders::condition_shut, crate::proofs::TermReaders::condition_more))]
fn condition(marks: &[u16], ats: &[u16], room: usize, i: usize) -> Result<usize, Refusal>
    ensures { result ≡ condition_at marks.now ats.now room i }
{
    if room == 0 {
        let shut = the_in(marks, ats, 0, OPEN, i)?;
        return wrong(ats, shut);
    }
    let inside = the(marks, ats, OPEN, i)?;
    let tested = test(marks, ats, room - 1, inside)?;
    the(marks, ats, CLOSE, tested)
}

// `call F [e ..])` behind its bracket.
#[tactic(auto, using(crate::proofs::TermReaders::call_opens))]
fn call(marks: &[u16], ats: &[u16], room: usize, i: usize) -> Result<usize, Refusal>
    ensures { result ≡ call_at marks.now ats.now room i }
{
    let named = the(marks, ats, CALL, i)?;
    let called = word(marks, ats, PLAIN, named)?;
    let given = args(marks, ats, room, called)?;
    the(marks, ats, CLOSE, given)
}

// `cons e e)` behind its bracket.
#[tactic(auto, using(crate::proofs::TermReaders::pair_opens))]
fn pair(marks: &[u16], ats: &[u16], room: usize, i: usize) -> Result<usize, Refusal>
    ensures { result ≡ pair_at marks.now ats.now room i }
{
    let named = the(marks, ats, CONS, i)?;
    let head = tree(marks, ats, ENAME, ANAME, room, named)?;
    let tail = tree(marks, ats, ENAME, ANAME, room, head)?;
    the(marks, ats, CLOSE, tail)
}

// `if k t t)` behind its bracket.
#[cycle(conditional_term)]
#[tactic(auto, using(crate::proofs::TermReaders::conditional_opens))]
fn conditional(marks: &[u16], ats: &[u16], room: usize, i: usize) -> Result<usize, Refusal>
    ensures { result ≡ conditional_at marks.now ats.now room i }
{
    let named = the(marks, ats, IF, i)?;
    let tested = condition(marks, ats, room, named)?;
    let first = term(marks, ats, room, tested)?;
    let second = term(marks, ats, room, first)?;
    the(marks, ats, CLOSE, second)
}

// "t: `(call F [e ..])`, `(if k t t)` or e"
#[cycle(conditional_term)]
#[tactic(auto, using(crate::proofs::TermReaders::term_shut, crate::proofs::TermReaders::term_leaf, crate::proofs::TermReaders::term_refused, crate::proofs::TermReaders::term_call, crate::proofs::TermReaders::term_conditional, crate::proofs::TermReaders::term_pair))]
pub(crate) fn term(marks: &[u16], ats: &[u16], room: usize, i: usize) -> Result<usize, Refusal>
    ensures { result ≡ term_at marks.now ats.now room i }
{
    if room == 0 {
        return tree(marks, ats, ENAME, ANAME, 0, i);
    }
    if key(marks, i) == OPEN {
        let inside = the(marks, ats, OPEN, i)?;
        let named = key(marks, inside);
        if named == CALL {
            return call(marks, ats, room - 1, inside);
        }
        if named == IF {
            return conditional(marks, ats, room - 1, inside);
        }
        return pair(marks, ats, room - 1, inside);
    }
    leaf(marks, ats, ENAME, ANAME, i)
}
