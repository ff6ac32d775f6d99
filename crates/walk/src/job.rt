// The walk of a job, in storages of its own.
ghost use Rattle.std.specs.Prelude.{◌≡◌};
ghost use Rattle.walk.specs.Twins.Jobs.{job_left, walk_first, walk_begun, job_laid, walk_laid};

use crate::walk::walk_on;
use constants::lay::lay_constants;
use heap::configuration::Configuration;
use initial::begin::begin;
use positions::position::{Bounds, Position};
use positions::used::with_used;
use restrictions::failure::Failure;
use saving::head::Node;
use saving::saved::save;
use syntax::job_ends::JobEnds;
use syntax::numerals::Numerals;
use turns::choice::is_over;
use turns::found;
use turns::found::{Ending, Walked, cut_off, nothing};
use turns::state::state_at;
use values::size::kept_nodes;

// The walk behind the first transition, which leads to c and counts: c is saved below all others.
fn walk_first(
    code: &[u16; 24582],
    heap: &mut [u16; 65535],
    frame: &mut [u16; 12360],
    q: &mut [u16; 4096],
    answer: &mut [u16],
    c: Configuration,
    k: Numerals,
) -> Walked
    ensures { job_left result answer.new ≡ walk_first code.now c k heap.old frame.old q.old answer.old }
{
    let mut path: [u16; 1000] = [0; 1000];
    let mut saved: [u16; 16384] = [0; 16384];
    let n = Node {
        at: c,
        steps: 1,
        depth: 0,
    };
    let base = save(frame, q, &mut saved, n, 0, 0);
    let b = Bounds {
        steps: k.steps,
        walk: k.walk,
        table: k.table,
        base,
    };
    let s = state_at(Position { node: n, top: base }, found::count(nothing()));
    walk_on(code, heap, frame, q, &mut path, &mut saved, answer, s, b)
}

// "The start state is the call of main on the inputs": 21 there comes first; it is no end, so that with N = 0 it is cut; then 23.
fn walk_begun(
    code: &[u16; 24582],
    heap: &mut [u16; 65535],
    frame: &mut [u16; 12360],
    q: &mut [u16; 4096],
    answer: &mut [u16],
    c: Configuration,
    k: Numerals,
) -> Walked
    ensures { job_left result answer.new ≡ walk_begun code.now c k heap.old frame.old q.old answer.old }
{
    if is_over(kept_nodes(frame, c.entries, c.neqs)) {
        return found::stopped(Ending::Over, nothing());
    }
    if k.steps == 0 {
        return found::stopped(Ending::Done, cut_off(nothing()));
    }
    if k.walk == 0 {
        return found::stopped(Ending::Spent, nothing());
    }
    walk_first(code, heap, frame, q, answer, c, k)
}

// "A contradictory job has no start: whole, no lines, 0 transitions." The constants of the program, which has `count` tokens, are laid out behind the job, and
// `code` says where. Not inlined: its storages are to take no stack while the texts are read and linked.
#[inline(never)]
pub fn walk_job(
    code: &mut [u16; 24582],
    count: usize,
    body: usize,
    jmarks: &[u16],
    jnums: &[u16],
    parts: JobEnds,
    k: Numerals,
    answer: &mut [u16],
) -> Walked
    ensures { job_laid (job_left result answer.new) code.new ≡ walk_laid code.old count body jmarks.now jnums.now parts k answer.old }
{
    let mut heap: [u16; 65535] = [0; 65535];
    let mut frame: [u16; 12360] = [0; 12360];
    let mut q: [u16; 4096] = [0; 4096];
    match begin(
        body, jmarks, jnums, parts, &mut heap, &mut frame, &mut q, false,
    ) {
        Ok(c) => {
            let used = lay_constants(code, &mut heap, c.used, count);
            walk_begun(
                code,
                &mut heap,
                &mut frame,
                &mut q,
                answer,
                with_used(c, used),
                k,
            )
        }
        Err(Failure::Contradiction) => found::stopped(Ending::Done, nothing()),
        Err(Failure::Over) => found::stopped(Ending::Over, nothing()),
    }
}
