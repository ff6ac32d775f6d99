// One binding, applied to all that meets: "Each binding is applied to all that remains."
ghost use Rattle.std.specs.Prelude.{◌≡◌};
ghost use Rattle.meetings.specs.Twins.Binding.{bound, step_left, entries_bound, variable_bound};

use crate::class;
use crate::class::{Class, Step};
use cells::cell;
use heap::apply::bind_restriction;
use heap::contract;
use restrictions::failure::Failure;
use std::ops::ControlFlow;

// The variable bound to the tree of a range in the inputs, w and u.
fn bind_entries(
    heap: &mut [u16; 65535],
    frame: &mut [u16; 12360],
    c: Class,
    var: u16,
    from: usize,
    to: usize,
) -> Step
    ensures { bound result heap.new frame.new ≡ entries_bound c var from to heap.old frame.old }
{
    let n = class::output_entry(c);
    let w = contract::contract_entries(heap, frame, 0, n + 1, var, from, to, c.used);
    class::grown(frame, c, w)
}

// "Failure or contradiction gives no line; a binding is tested for contradiction before 21."
pub(crate) fn bind(
    heap: &mut [u16; 65535],
    frame: &mut [u16; 12360],
    q: &mut [u16; 4096],
    c: Class,
    var: u16,
    from: usize,
    to: usize,
) -> Step
    ensures { step_left result heap.new frame.new q.new ≡ variable_bound c var from to heap.old frame.old q.old }
{
    let code = cell::cell(heap, from);
    match bind_restriction(q, c.neqs, var, code) {
        Ok(neqs) => bind_entries(heap, frame, Class { neqs, ..c }, var, from, to),
        Err(_) => ControlFlow::Break(Err(Failure::Contradiction)),
    }
}
