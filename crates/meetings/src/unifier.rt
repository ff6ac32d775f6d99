// The unifier, a binding at a time: the leftmost disagreement of w and u is removed until there is none.
ghost use Rattle.std.specs.Prelude.{◌≡◌};
ghost use Rattle.meetings.specs.Twins.Binding.{step_left};
ghost use Rattle.meetings.specs.Twins.Unifying.{disagreement_in, unify_stepped, unify_turned, met_left, unified};

use crate::class::{Class, Met, Step};
use crate::difference::Disagreement;
use crate::{binding, class, difference, room};
use restrictions::failure::Failure;
use std::ops::ControlFlow;

// The leftmost disagreement of the entries w and u.
fn disagreement(heap: &[u16; 65535], frame: &[u16; 12360], c: Class) -> Disagreement
    ensures { result ≡ disagreement_in c heap.now frame.now }
{
    let w = class::entry_at(frame, class::wanted_entry(c));
    let u = class::entry_at(frame, class::output_entry(c));
    difference::leftmost(heap, w.from, w.to, u.from, u.to)
}

// The leftmost disagreement, removed in the class.
fn unify_step(
    heap: &mut [u16; 65535],
    frame: &mut [u16; 12360],
    q: &mut [u16; 4096],
    c: Class,
) -> Step
    ensures { step_left result heap.new frame.new q.new ≡ unify_stepped c heap.old frame.old q.old }
{
    match disagreement(heap, frame, c) {
        Disagreement::Same => ControlFlow::Break(Ok(c)),
        Disagreement::Apart => ControlFlow::Break(Err(Failure::Contradiction)),
        Disagreement::Bind { var, from, to } => binding::bind(heap, frame, q, c, var, from, to),
    }
}

// Room first, since it moves ranges; then the disagreement.
fn unify_turn(
    heap: &mut [u16; 65535],
    frame: &mut [u16; 12360],
    q: &mut [u16; 4096],
    c: Class,
) -> Step
    ensures { step_left result heap.new frame.new q.new ≡ unify_turned c heap.old frame.old q.old }
{
    let roomy = room::make_room(heap, frame, c);
    unify_step(heap, frame, q, roomy)
}

// "At an end, the output u meets the wanted w": the class with every binding applied, in the entries and q. "21 .. at the start of an intersection or after a
// binding".
pub fn unify(
    heap: &mut [u16; 65535],
    frame: &mut [u16; 12360],
    q: &mut [u16; 4096],
    class: Class,
) -> Met
    ensures { met_left result heap.new frame.new q.new ≡ unified class heap.old frame.old q.old }
{
    if class::NODES < class::class_nodes(frame, class) {
        return Err(Failure::Over);
    }
    let mut c = class;
    for _ in 0..class::bindings_enough(frame, class) {
        match unify_turn(heap, frame, q, c) {
            ControlFlow::Break(m) => return m,
            ControlFlow::Continue(next) => c = next,
        }
    }
    Err(Failure::Contradiction)
}
