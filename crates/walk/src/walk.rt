// The walk: one transition of the tree a turn.
ghost use Rattle.std.specs.Prelude.{◌≡◌};
ghost use Rattle.walk.specs.Twins.Backing.{turn_left};
ghost use Rattle.walk.specs.Twins.Walking.{way_at, walk_turn, walked_left, walked_on};

use crate::back::turn_back;
use crate::make::{make_call, make_choice};
use linking::code::link_at;
use positions::position::Bounds;
use replay::room::have_room;
use saving::head::Node;
use turns::choice::{Way, way_on};
use turns::found::{Ending, Walked, stopped};
use turns::state::{State, Turn, state_at};

fn way_at(code: &[u16; 24582], n: Node, b: Bounds) -> Way
    ensures { result ≡ way_at code.now b n }
{
    way_on(link_at(code, n.at.place).mark, b, n)
}

// A call or a condition makes its transition; a leaf has none, and the walk goes on behind it.
fn walk_turn(
    code: &[u16; 24582],
    heap: &mut [u16; 65535],
    frame: &mut [u16; 12360],
    q: &mut [u16; 4096],
    path: &mut [u16; 1000],
    saved: &mut [u16; 16384],
    answer: &mut [u16],
    from: State,
    b: Bounds,
) -> Turn
    ensures { turn_left result heap.new frame.new q.new path.new saved.new answer.new ≡ walk_turn code.now b from heap.old frame.old q.old path.old saved.old answer.old }
{
    let f = from.found;
    let p = have_room(heap, frame, saved, from.at, b.base);
    let s = state_at(p, f);
    match way_at(code, p.node, b) {
        Way::Call => make_call(code, heap, frame, s, b.walk),
        Way::Choice => make_choice(code, heap, frame, q, path, saved, s, b),
        Way::Leaf => turn_back(code, heap, frame, q, path, saved, answer, s, b),
    }
}

// The walk from a node that has been entered.
pub fn walk_on(
    code: &[u16; 24582],
    heap: &mut [u16; 65535],
    frame: &mut [u16; 12360],
    q: &mut [u16; 4096],
    path: &mut [u16; 1000],
    saved: &mut [u16; 16384],
    answer: &mut [u16],
    from: State,
    b: Bounds,
) -> Walked
    ensures { walked_left result heap.new frame.new q.new path.new saved.new answer.new ≡ walked_on code.now b from heap.old frame.old q.old path.old saved.old answer.old }
{
    let mut s = from;
    for _ in 0..b.walk.min(1000000) + 1 {
        match walk_turn(code, heap, frame, q, path, saved, answer, s, b) {
            Ok(next) => s = next,
            Err(walked) => return walked,
        }
    }
    stopped(Ending::Spent, s.found)
}
