// The transition to a branch of an `eqa?`. A branch that contradicts is never taken.
ghost use Rattle.std.specs.Prelude.{◌≡◌};
ghost use Rattle.heap.specs.Twins.Moving.{left as leaves};
ghost use Rattle.atoms.specs.Twins.Taking.{taken_by, equal_taken, unequal_taken};

use heap::apply::contract;
use heap::configuration::Configuration;
use linking::code::link_at;
use restrictions::failure::Failure;
use sets::contraction::{Contraction, equality_contraction};

// The contraction applied, at a branch's place.
fn take(
    k: Contraction,
    place: usize,
    heap: &mut [u16; 65535],
    frame: &mut [u16; 12360],
    q: &mut [u16; 4096],
    c: Configuration,
) -> Result<Configuration, Failure>
    ensures { leaves result heap.new frame.new q.new ≡ taken_by k place c heap.old frame.old q.old }
{
    contract(k, heap, frame, q, Configuration { place, ..c })
}

// "the true branch binds the left side to the right if left is a variable, else right to left"
pub fn take_equal(
    code: &[u16; 24582],
    heap: &mut [u16; 65535],
    frame: &mut [u16; 12360],
    q: &mut [u16; 4096],
    c: Configuration,
    left: u16,
    right: u16,
) -> Result<Configuration, Failure>
    ensures { leaves result heap.new frame.new q.new ≡ equal_taken code.now c left right heap.old frame.old q.old }
{
    let place = usize::from(link_at(code, c.place).first);
    let k = equality_contraction(left, right);
    take(k, place, heap, frame, q, c)
}

// "the false branch adds the non-equality as written"
pub fn take_unequal(
    code: &[u16; 24582],
    heap: &mut [u16; 65535],
    frame: &mut [u16; 12360],
    q: &mut [u16; 4096],
    c: Configuration,
    left: u16,
    right: u16,
) -> Result<Configuration, Failure>
    ensures { leaves result heap.new frame.new q.new ≡ unequal_taken code.now c left right heap.old frame.old q.old }
{
    let place = usize::from(link_at(code, c.place).second);
    let k = Contraction::NonEqual { left, right };
    take(k, place, heap, frame, q, c)
}
