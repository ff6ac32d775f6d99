// A run on the job's inputs: "The runner reads a whole job text, checks it, and uses only the inputs and N."
ghost use Rattle.std.specs.Prelude.{◌≡◌};
ghost use Rattle.running.specs.Twins.Answers.{ran_answer};
ghost use Rattle.forward.specs.Twins.Running.{run_begun, run_inputs};

use crate::run::run_on;
use heap::configuration::Configuration;
use initial::begin::{begin, main_body};
use restrictions::failure::Failure;
use run_answers::run::Ran;
use running::ran::settle;
use syntax::job_ends::JobEnds;

// From what the job begins as, on.
fn run_begun(
    code: &[u16; 24582],
    heap: &mut [u16; 65535],
    frame: &mut [u16; 12360],
    q: &mut [u16; 4096],
    b: Result<Configuration, Failure>,
    steps: usize,
    answer: &mut [u16],
) -> Ran
    ensures { ran_answer result answer.new ≡ run_begun code.now b steps heap.old frame.old q.old answer.old }
{
    match b {
        Ok(c) => run_on(code, heap, frame, q, c, steps, answer),
        Err(_) => Ran::Over,
    }
}

// A run of at most `steps` transitions of the linked program, whose tokens and heads begin main's body, on the inputs of the job with these parts.
// Not inlined: its storages are to take no stack while the texts are read and linked.
#[inline(never)]
pub fn run_inputs(
    marks: &[u16],
    heads: &[u16; 64],
    jmarks: &[u16],
    jnums: &[u16],
    parts: JobEnds,
    code: &[u16; 24582],
    steps: usize,
    answer: &mut [u16],
) -> Ran
    ensures { ran_answer result answer.new ≡ run_inputs marks.now heads.now jmarks.now jnums.now parts code.now steps answer.old }
{
    let mut heap: [u16; 65535] = [0; 65535];
    let mut frame: [u16; 12360] = [0; 12360];
    let mut q: [u16; 4096] = [0; 4096];
    let body = main_body(marks, heads);
    let b = begin(
        body, jmarks, jnums, parts, &mut heap, &mut frame, &mut q, true,
    );
    let ran = run_begun(code, &mut heap, &mut frame, &mut q, b, steps, answer);
    settle(ran, answer)
}
