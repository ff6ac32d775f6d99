// The readers of definitions and programs (specs/Twins/Positions.antt).
ghost use Rattle.std.specs.Prelude.{◌≡◌};
ghost use Rattle.grammar.specs.Twins.Stored.{parameter_at, parameters_at, definition_at, definitions_at, program_at};

use crate::marks::{key, kind};
use crate::readers::{one_of, the, the_in, word, wrong};
use crate::terms::term;
use bounds::program::{definitions_behind, parameters_listed};
use bounds::text::brackets_inside;
use refusals::refusal::Refusal;
use words::keys::{ANAME, CLOSE, CLOSE_LIST, DEFINE, ENAME, END, OPEN, OPEN_LIST, PLAIN};

// "x": a parameter, if there is room for one more.
#[tactic(auto, using(crate::proofs::TextReaders::parameter_e, crate::proofs::TextReaders::parameter_a))]
fn parameter(marks: &[u16], ats: &[u16], room: usize, i: usize) -> Result<usize, Refusal>
    ensures { result ≡ parameter_at marks.now ats.now room i }
{
    if kind(marks, i) == ENAME {
        return one_of(marks, ats, room, ENAME, i);
    }
    one_of(marks, ats, room, ANAME, i)
}

// "at most 16 parameters"
#[tactic(auto, using(crate::proofs::TextReaders::parameters_close, crate::proofs::TextReaders::parameters_on, crate::proofs::TextReaders::parameters_full))]
fn parameters(marks: &[u16], ats: &[u16], start: usize) -> Result<usize, Refusal>
    ensures { result ≡ parameters_at marks.now ats.now 16 start }
{
    let mut at = start;
    for _ in 0..parameters_listed() {
        if key(marks, at) == CLOSE_LIST {
            return Ok(at);
        }
        at = parameter(marks, ats, 1, at)?;
    }
    if key(marks, at) == CLOSE_LIST {
        return Ok(at);
    }
    let over = parameter(marks, ats, 0, at)?;
    wrong(ats, over)
}

// "`(define F [x ..] t)`", if there is room for one more: "5 ... a definition at its opening bracket".
#[tactic(auto, using(crate::proofs::TextReaders::definition_opens))]
fn definition(marks: &[u16], ats: &[u16], room: usize, i: usize) -> Result<usize, Refusal>
    ensures { result ≡ definition_at marks.now ats.now room i }
{
    let opened = the_in(marks, ats, room, OPEN, i)?;
    let named = the(marks, ats, DEFINE, opened)?;
    let function = word(marks, ats, PLAIN, named)?;
    let listed = the(marks, ats, OPEN_LIST, function)?;
    let all = parameters(marks, ats, listed)?;
    let closed = the(marks, ats, CLOSE_LIST, all)?;
    let body = term(marks, ats, brackets_inside(), closed)?;
    the(marks, ats, CLOSE, body)
}

// Definitions up to the end, 63 at most.
#[tactic(auto, using(crate::proofs::TextReaders::definitions_close, crate::proofs::TextReaders::definitions_on, crate::proofs::TextReaders::definitions_full))]
fn definitions(marks: &[u16], ats: &[u16], start: usize) -> Result<usize, Refusal>
    ensures { result ≡ definitions_at marks.now ats.now 63 start }
{
    let mut at = start;
    for _ in 0..definitions_behind() {
        if key(marks, at) == END {
            return Ok(at);
        }
        at = definition(marks, ats, 1, at)?;
    }
    if key(marks, at) == END {
        return Ok(at);
    }
    let over = definition(marks, ats, 0, at)?;
    wrong(ats, over)
}

// "program: one or more of `(define F [x ..] t)`"; "a program 64 definitions".
#[tactic(auto, using(crate::proofs::TextReaders::program_opens))]
pub fn program(marks: &[u16], ats: &[u16]) -> Result<usize, Refusal>
    ensures { result ≡ program_at marks.now ats.now 0 }
{
    let main = definition(marks, ats, 1, 0)?;
    definitions(marks, ats, main)
}
