// A transition made: of a call, or of a condition by the branch that is taken first.
ghost use Rattle.std.specs.Prelude.{◌≡◌, Bool};
ghost use Rattle.heap.specs.Twins.Moving.{left as leaves};
ghost use Rattle.walk.specs.Twins.Making.{sized_move, moved_on, called_left, made_call, choice_left, choice_recorded, branch_left, made_choice};

use calls::call::call;
use heap::configuration::{Branches, Configuration};
use positions::position::{Bounds, Position, at_depth};
use replay::replay::save_if;
use restrictions::failure::Failure;
use tracing::ask::{Asked, ask, branches};
use tracing::take::take;
use trails::trail::push_choice;
use turns::choice::{first_branch, is_both, is_spent};
use turns::found::{Ending, stopped};
use turns::state::{State, Turn, after_move, state_at};
use values::names::names_from;
use values::size::sized;

// "21 over 4,096 nodes: .. after a transition"
fn sized_move(
    frame: &[u16; 12360],
    m: Result<Configuration, Failure>,
) -> Result<Configuration, Failure>
    ensures { result ≡ sized_move m frame.now }
{
    sized(frame, m?)
}

// The transition by a branch.
pub(crate) fn move_on(
    code: &[u16; 24582],
    heap: &mut [u16; 65535],
    frame: &mut [u16; 12360],
    q: &mut [u16; 4096],
    c: Configuration,
    a: Asked,
    taken: bool,
) -> Result<Configuration, Failure>
    ensures { leaves result heap.new frame.new q.new ≡ moved_on code.now c a taken heap.old frame.old q.old }
{
    let m = take(code, heap, frame, q, c, a, taken);
    sized_move(frame, m)
}

// The transition of a call: "23 a transition would be number W+1".
pub(crate) fn make_call(
    code: &[u16; 24582],
    heap: &mut [u16; 65535],
    frame: &mut [u16; 12360],
    s: State,
    walk: usize,
) -> Turn
    ensures { called_left result heap.new frame.new ≡ made_call code.now s walk heap.old frame.old }
{
    let f = s.found;
    if is_spent(walk, f) {
        return Err(stopped(Ending::Spent, f));
    }
    let c = s.at.node.at;
    let m = call(code, heap, frame, names_from(c), c);
    let after = sized_move(frame, m);
    after_move(s, after)
}

// The choice among these branches recorded on the path, and the configuration saved where the false one is untaken.
fn record_choice(
    frame: &[u16; 12360],
    q: &[u16; 4096],
    path: &mut [u16; 1000],
    saved: &mut [u16; 16384],
    p: Position,
    w: Branches,
    base: usize,
) -> Position
    ensures { choice_left result path.new saved.new ≡ choice_recorded p w base frame.now q.now path.old saved.old }
{
    let n = p.node;
    let both = is_both(w);
    let depth = push_choice(path, n.depth, first_branch(w), both);
    let top = save_if(frame, q, saved, p, base, both);
    at_depth(n, depth, top)
}

// The transition of a condition: "true branch first"; a branch that contradicts is none.
pub(crate) fn make_choice(
    code: &[u16; 24582],
    heap: &mut [u16; 65535],
    frame: &mut [u16; 12360],
    q: &mut [u16; 4096],
    path: &mut [u16; 1000],
    saved: &mut [u16; 16384],
    s: State,
    b: Bounds,
) -> Turn
    ensures { branch_left result heap.new frame.new q.new path.new saved.new ≡ made_choice code.now b s heap.old frame.old q.old path.old saved.old }
{
    let p = s.at;
    let f = s.found;
    let n = p.node;
    let c = n.at;
    let a = ask(code, heap, frame, c);
    let w = branches(q, c.neqs, a);
    let at = record_choice(frame, q, path, saved, p, w, b.base);
    if is_spent(b.walk, f) {
        return Err(stopped(Ending::Spent, f));
    }
    let m = move_on(code, heap, frame, q, c, a, first_branch(w));
    after_move(state_at(at, f), m)
}
