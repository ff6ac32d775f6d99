// The two branches of a `cons?`, by what it tests.
ghost use Rattle.std.specs.Prelude.{◌≡◌};
ghost use Rattle.heap.specs.Twins.Moving.{moved};
ghost use Rattle.pairs.specs.Twins.Branching.{true_taken, false_taken, branches_of};

use crate::split::{split_atom, split_pair};
use heap::configuration::{Branches, Configuration};
use looking::look::Tested;
use looking::take::{take_atom, take_pair};
use restrictions::failure::Failure;

// Of an atom the false one, of a pair the true one, of a `?e` both. A value that the heap has no room for is a pair.
pub fn branches_of(t: Tested) -> Branches
    ensures { result ≡ branches_of t }
{
    match t {
        Tested::Atom { .. } => Branches {
            yes: false,
            no: true,
        },
        Tested::Pair { .. } | Tested::Large => Branches {
            yes: true,
            no: false,
        },
        Tested::Variable { .. } => Branches {
            yes: true,
            no: true,
        },
    }
}

// The true branch. Of an atom there is none.
pub fn take_true(
    code: &[u16; 24582],
    heap: &mut [u16; 65535],
    frame: &mut [u16; 12360],
    c: Configuration,
    t: Tested,
) -> Result<Configuration, Failure>
    ensures { moved result heap.new frame.new ≡ true_taken code.now c t heap.old frame.old }
{
    match t {
        Tested::Atom { .. } | Tested::Large => Err(Failure::Over),
        Tested::Pair {
            from,
            mid,
            to,
            used,
        } => take_pair(code, frame, c, from, mid, to, used),
        Tested::Variable { var } => split_pair(code, heap, frame, c, var),
    }
}

// The false branch. Of a pair there is none.
pub fn take_false(
    code: &[u16; 24582],
    heap: &mut [u16; 65535],
    frame: &mut [u16; 12360],
    c: Configuration,
    t: Tested,
) -> Result<Configuration, Failure>
    ensures { moved result heap.new frame.new ≡ false_taken code.now c t heap.old frame.old }
{
    match t {
        Tested::Atom { from, to, used } => take_atom(code, frame, c, from, to, used),
        Tested::Pair { .. } | Tested::Large => Err(Failure::Over),
        Tested::Variable { var } => split_atom(code, heap, frame, c, var),
    }
}
