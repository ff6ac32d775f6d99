// The transition of a configuration's term: a call, or the branch of a condition that is named.
ghost use Rattle.std.specs.Prelude.{◌≡◌, Bool};
ghost use Rattle.heap.specs.Twins.Moving.{left as leaves};
ghost use Rattle.tracing.specs.Twins.Asking.{true_taken, false_taken, taken_as};

use crate::ask::Asked;
use atoms::take::{take_equal, take_unequal};
use calls::call::call;
use heap::configuration::Configuration;
use pairs::branch::{take_false, take_true};
use restrictions::failure::Failure;
use values::names::names_from;

fn take_yes(
    code: &[u16; 24582],
    heap: &mut [u16; 65535],
    frame: &mut [u16; 12360],
    q: &mut [u16; 4096],
    c: Configuration,
    a: Asked,
) -> Result<Configuration, Failure>
    ensures { leaves result heap.new frame.new q.new ≡ true_taken code.now c a heap.old frame.old q.old }
{
    match a {
        Asked::End => Err(Failure::Over),
        Asked::Call => call(code, heap, frame, names_from(c), c),
        Asked::Same { left, right } => take_equal(code, heap, frame, q, c, left, right),
        Asked::Test(t) => take_true(code, heap, frame, c, t),
    }
}

fn take_no(
    code: &[u16; 24582],
    heap: &mut [u16; 65535],
    frame: &mut [u16; 12360],
    q: &mut [u16; 4096],
    c: Configuration,
    a: Asked,
) -> Result<Configuration, Failure>
    ensures { leaves result heap.new frame.new q.new ≡ false_taken code.now c a heap.old frame.old q.old }
{
    match a {
        Asked::End => Err(Failure::Over),
        Asked::Call => call(code, heap, frame, names_from(c), c),
        Asked::Same { left, right } => take_unequal(code, heap, frame, q, c, left, right),
        Asked::Test(t) => take_false(code, heap, frame, c, t),
    }
}

// By the true branch, or by the false one; a call has one way on.
pub fn take(
    code: &[u16; 24582],
    heap: &mut [u16; 65535],
    frame: &mut [u16; 12360],
    q: &mut [u16; 4096],
    c: Configuration,
    a: Asked,
    taken: bool,
) -> Result<Configuration, Failure>
    ensures { leaves result heap.new frame.new q.new ≡ taken_as code.now c a taken heap.old frame.old q.old }
{
    if taken {
        return take_yes(code, heap, frame, q, c, a);
    }
    take_no(code, heap, frame, q, c, a)
}
