// "The start state is the call of main on the inputs." Its term stands in no text, so that what is made here is its successor: main's body, its
// parameters bound to the inputs.
ghost use Rattle.std.specs.Prelude.{◌≡◌};
ghost use Rattle.initial.specs.Twins.Beginning.{main_body, enter_left, job_entered, begun_left, begun_at};

use crate::trees::enter_trees;
use heap::configuration::Configuration;
use heap::entry::push_entry;
use layout::fresh::first_fresh;
use layout::job::{lay_job, take_sides};
use linking::terms::closing;
use restrictions::failure::Failure;
use syntax::job_ends::JobEnds;

// Where main's body starts, by the index of its name: behind its parameters.
pub fn main_body(marks: &[u16], heads: &[u16; 64]) -> usize
    ensures { result ≡ main_body marks.now heads.now }
{
    let name = usize::from(heads[0]);
    let open = name.min(4097) + 2;
    closing(marks, open).min(4097) + 1
}

// How many inputs there are, and entries in all.
#[derive(Clone, Copy)]
pub(crate) struct Entered {
    pub inputs: usize,
    pub entries: usize,
}

// The entries of the job whose inputs end at `ins`, and its wanted output at `io`: the inputs, behind them the output, behind it the inputs once more, the
// values of main's parameters. None: there is no room for them.
fn enter_job(
    heap: &[u16; 65535],
    frame: &mut [u16; 12360],
    ins: usize,
    io: usize,
) -> Option<Entered>
    ensures { enter_left result frame.new ≡ job_entered ins io heap.now frame.old }
{
    let inputs = enter_trees(heap, frame, 0, 0, ins)?;
    let n = push_entry(frame, inputs, 0, ins, io)?;
    let entries = enter_trees(heap, frame, n, 0, ins)?;
    Some(Entered { inputs, entries })
}

// The job whose parts stand so, in main's body. With `run` its inputs alone. "A contradictory job has no start": that is a contradiction; what does not
// fit, and then has over 4,096 nodes, is over. What has over 4,096 nodes and fits is not refused here.
pub fn begin(
    body: usize,
    jmarks: &[u16],
    jnums: &[u16],
    parts: JobEnds,
    heap: &mut [u16; 65535],
    frame: &mut [u16; 12360],
    q: &mut [u16; 4096],
    run: bool,
) -> Result<Configuration, Failure>
    ensures { begun_left result heap.new frame.new q.new ≡ begun_at body jmarks.now jnums.now parts run heap.old frame.old q.old }
{
    let s = lay_job(jmarks, jnums, parts, heap, run).ok_or(Failure::Over)?;
    let counter = first_fresh(heap, s.all);
    let neqs = take_sides(heap, q, s.io, s.all)?;
    let e = enter_job(heap, frame, s.ins, s.io).ok_or(Failure::Over)?;
    Ok(Configuration {
        inputs: e.inputs,
        outputs: 1,
        entries: e.entries,
        used: s.io,
        neqs,
        place: body,
        counter,
    })
}
