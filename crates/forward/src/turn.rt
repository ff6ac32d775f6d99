// One transition of a run.
ghost use Rattle.std.specs.Prelude.{◌≡◌, Bool};
ghost use Rattle.forward.specs.Twins.Turning.{room_left, roomed, output_room, finish_left, finished, turn_by, turn_left, advanced, turned};

use crate::next::{ends_at, is_over, next_place};
use crate::output::push_output;
use compaction::compact::compact;
use heap::configuration::Configuration;
use heap::entry;
use run_answers::run::Ran;
use running::ran::ran_by;
use std::ops::ControlFlow;
use tracing::ask::{Asked, ask, branches};
use tracing::take::take;

// What a transition leads to: the next state, or what the run comes to.
pub(crate) type Turn = ControlFlow<Ran, Configuration>;

// Where much of the heap is used, the values in use are put together from its first cell on.
fn make_room(heap: &mut [u16; 65535], frame: &mut [u16; 12360], c: Configuration) -> Configuration
    ensures { room_left result heap.new frame.new ≡ roomed c heap.old frame.old }
{
    if 40959 < c.used {
        let used = compact(heap, frame, c.entries, 0, c.used);
        return Configuration { used, ..c };
    }
    c
}

// "at an end of the inputs and the output": how many nodes the output may have.
fn output_room(frame: &[u16; 12360], c: Configuration) -> usize
    ensures { result ≡ output_room c frame.now }
{
    4096_usize.saturating_sub(entry::nodes(frame, c.inputs))
}

// The end whose term stands at i, so many steps from the start.
pub(crate) fn finish(
    code: &[u16; 24582],
    heap: &mut [u16; 65535],
    frame: &[u16; 12360],
    c: Configuration,
    a: Asked,
    i: usize,
    steps: usize,
    answer: &mut [u16],
) -> Ran
    ensures { finish_left result heap.new answer.new ≡ finished code.now c a i steps heap.old frame.now answer.old }
{
    let limit = output_room(frame, c);
    let w = push_output(code, heap, frame, c, a, i, answer, limit);
    ran_by(steps, w)
}

// A transition to a state that is no end; "21 .. after a transition". No branch that is there contradicts.
fn advance(
    code: &[u16; 24582],
    heap: &mut [u16; 65535],
    frame: &mut [u16; 12360],
    q: &mut [u16; 4096],
    c: Configuration,
    a: Asked,
    taken: bool,
) -> Turn
    ensures { turn_by result heap.new frame.new q.new ≡ advanced code.now c a taken heap.old frame.old q.old }
{
    match take(code, heap, frame, q, c, a, taken) {
        Ok(d) => {
            if is_over(frame, d) {
                return ControlFlow::Break(Ran::Over);
            }
            ControlFlow::Continue(d)
        }
        Err(_) => ControlFlow::Break(Ran::Over),
    }
}

// The last of `steps` transitions, from a state that is no end. A run has no variables: a condition has one branch.
pub(crate) fn take_turn(
    code: &[u16; 24582],
    heap: &mut [u16; 65535],
    frame: &mut [u16; 12360],
    q: &mut [u16; 4096],
    from: Configuration,
    steps: usize,
    answer: &mut [u16],
) -> Turn
    ensures { turn_left result heap.new frame.new q.new answer.new ≡ turned code.now from steps heap.old frame.old q.old answer.old }
{
    let c = make_room(heap, frame, from);
    let a = ask(code, heap, frame, c);
    let taken = branches(q, c.neqs, a).yes;
    let i = next_place(code, c.place, taken);
    if ends_at(code, i) {
        return ControlFlow::Break(finish(code, heap, frame, c, a, i, steps, answer));
    }
    advance(code, heap, frame, q, c, a, taken)
}
