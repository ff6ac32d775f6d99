// Behind a leaf: "the latest choice whose false branch is untaken now takes it".
ghost use Rattle.std.specs.Prelude.{◌≡◌};
ghost use Rattle.walk.specs.Twins.Making.{branch_left};
ghost use Rattle.walk.specs.Twins.Backing.{went_back, turn_left, turned_back};

use crate::leaves::meet_leaf;
use crate::make::move_on;
use positions::position::{Bounds, at_depth};
use replay::replay::bring_back;
use tracing::ask::ask;
use trails::trail::backtrack;
use turns::choice::is_spent;
use turns::found::{Ending, stopped};
use turns::state::{State, Turn, after_move, state_at};

// The configuration of that choice brought back, and the transition to its false branch.
fn go_back(
    code: &[u16; 24582],
    heap: &mut [u16; 65535],
    frame: &mut [u16; 12360],
    q: &mut [u16; 4096],
    path: &mut [u16; 1000],
    saved: &mut [u16; 16384],
    s: State,
    b: Bounds,
) -> Turn
    ensures { branch_left result heap.new frame.new q.new path.new saved.new ≡ went_back code.now b s heap.old frame.old q.old path.old saved.old }
{
    let from = s.at;
    let f = s.found;
    let n = from.node;
    let d = backtrack(path, n.depth);
    if d == 0 {
        return Err(stopped(Ending::Done, f));
    }
    let p = bring_back(code, heap, frame, q, path, saved, from.top, d - 1, b);
    let m = p.node;
    let a = ask(code, heap, frame, m.at);
    if is_spent(b.walk, f) {
        return Err(stopped(Ending::Spent, f));
    }
    let z = move_on(code, heap, frame, q, m.at, a, false);
    after_move(state_at(at_depth(m, d, p.top), f), z)
}

pub(crate) fn turn_back(
    code: &[u16; 24582],
    heap: &mut [u16; 65535],
    frame: &mut [u16; 12360],
    q: &mut [u16; 4096],
    path: &mut [u16; 1000],
    saved: &mut [u16; 16384],
    answer: &mut [u16],
    s: State,
    b: Bounds,
) -> Turn
    ensures { turn_left result heap.new frame.new q.new path.new saved.new answer.new ≡ turned_back code.now b s heap.old frame.old q.old path.old saved.old answer.old }
{
    let t = meet_leaf(code, heap, frame, q, answer, s, b)?;
    go_back(code, heap, frame, q, path, saved, t, b)
}
