// A run: "One transition is one call or one decided condition, and a run's steps are its transitions".
ghost use Rattle.std.specs.Prelude.{◌≡◌, ◌-◌};
ghost use Rattle.running.specs.Twins.Answers.{ran_answer};
ghost use Rattle.forward.specs.Twins.Running.{ran_from, ran_on};

use crate::next::{ends_at, is_over};
use crate::turn::{finish, take_turn};
use heap::configuration::Configuration;
use run_answers::run::Ran;
use std::ops::ControlFlow;
use tracing::ask::Asked;

// From a state that is no end, one step from the start, on.
fn run_from(
    code: &[u16; 24582],
    heap: &mut [u16; 65535],
    frame: &mut [u16; 12360],
    q: &mut [u16; 4096],
    c: Configuration,
    steps: usize,
    answer: &mut [u16],
) -> Ran
    ensures { ran_answer result answer.new ≡ ran_from code.now (steps - 1) 1 c heap.old frame.old q.old answer.old }
{
    let mut d = c;
    for k in 1..steps {
        match take_turn(code, heap, frame, q, d, k + 1, answer) {
            ControlFlow::Continue(e) => d = e,
            ControlFlow::Break(r) => return r,
        }
    }
    Ran::NotWithin
}

// From main's body on, the call of which is the first step: "21 .. at the start", an end, `not within N`.
pub(crate) fn run_on(
    code: &[u16; 24582],
    heap: &mut [u16; 65535],
    frame: &mut [u16; 12360],
    q: &mut [u16; 4096],
    c: Configuration,
    steps: usize,
    answer: &mut [u16],
) -> Ran
    ensures { ran_answer result answer.new ≡ ran_on code.now c steps heap.old frame.old q.old answer.old }
{
    if is_over(frame, c) {
        return Ran::Over;
    }
    if steps == 0 {
        return Ran::NotWithin;
    }
    if ends_at(code, c.place) {
        return finish(code, heap, frame, c, Asked::End, c.place, 1, answer);
    }
    run_from(code, heap, frame, q, c, steps, answer)
}
