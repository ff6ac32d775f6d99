// A configuration of the path brought back: the latest saved one, and from there the path's transitions again, saving again.
ghost use Rattle.std.specs.Prelude.{◌≡◌, Bool, ◌-◌};
ghost use Rattle.saving.specs.Twins.Saving.{save_left};
ghost use Rattle.replay.specs.Twins.Replaying.{is_there, saved_if, replay_left, follow_step, follow_from, brought_back};

use crate::room::make_room;
use linking::code::{CALL, link_at};
use positions::position::{Bounds, Position, after_step, taken_up};
use saving::head::Node;
use saving::saved::{load, save};
use tracing::ask::{ask, is_call};
use tracing::take::take;
use trails::trail::{pending_at, taken_at};

// Whether the choice number `last` is to be made here.
fn is_there(code: &[u16; 24582], n: Node, last: usize) -> bool
    ensures { result ≡ is_there code.now n last }
{
    link_at(code, n.at.place).mark != CALL && last <= n.depth
}

// Saved, also again, where the false branch is untaken.
pub fn save_if(
    frame: &[u16; 12360],
    q: &[u16; 4096],
    saved: &mut [u16; 16384],
    p: Position,
    base: usize,
    pending: bool,
) -> usize
    ensures { save_left result saved.new ≡ saved_if pending p base frame.now q.now saved.old }
{
    if pending {
        return save(frame, q, saved, p.node, p.top, base);
    }
    p.top
}

// One transition of the path again.
fn follow_step(
    code: &[u16; 24582],
    heap: &mut [u16; 65535],
    frame: &mut [u16; 12360],
    q: &mut [u16; 4096],
    path: &[u16; 1000],
    saved: &mut [u16; 16384],
    from: Position,
    base: usize,
) -> Position
    ensures { replay_left result heap.new frame.new q.new saved.new ≡ follow_step code.now path.now base from heap.old frame.old q.old saved.old }
{
    let p = make_room(heap, frame, saved, from, base);
    let n = p.node;
    let c = n.at;
    let a = ask(code, heap, frame, c);
    if is_call(a) {
        let m = take(code, heap, frame, q, c, a, true);
        return after_step(p, m, false);
    }
    let top = save_if(frame, q, saved, p, base, pending_at(path, n.depth));
    let m = take(code, heap, frame, q, c, a, taken_at(path, n.depth));
    after_step(Position { top, ..p }, m, true)
}

// At most `limit` of them, up to the choice number `last`.
fn follow(
    code: &[u16; 24582],
    heap: &mut [u16; 65535],
    frame: &mut [u16; 12360],
    q: &mut [u16; 4096],
    path: &[u16; 1000],
    saved: &mut [u16; 16384],
    from: Position,
    last: usize,
    b: Bounds,
) -> Position
    ensures { replay_left result heap.new frame.new q.new saved.new ≡ follow_from code.now path.now b.base last b.steps from heap.old frame.old q.old saved.old }
{
    let mut p = from;
    for _ in 0..b.steps {
        if is_there(code, p.node, last) {
            return p;
        }
        p = follow_step(code, heap, frame, q, path, saved, p, b.base);
    }
    p
}

// The configuration at which the choice number `last` of the path is made; `top` is that of the saved ones.
pub fn bring_back(
    code: &[u16; 24582],
    heap: &mut [u16; 65535],
    frame: &mut [u16; 12360],
    q: &mut [u16; 4096],
    path: &[u16; 1000],
    saved: &mut [u16; 16384],
    top: usize,
    last: usize,
    b: Bounds,
) -> Position
    ensures { replay_left result heap.new frame.new q.new saved.new ≡ brought_back code.now path.now b.base last b.steps top heap.old frame.old q.old saved.old }
{
    let back = load(saved, top, frame, q);
    let p = taken_up(back, top, b.base);
    follow(code, heap, frame, q, path, saved, p, last, b)
}
