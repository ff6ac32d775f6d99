// A leaf of the tree: its end is met, or its path is cut.
ghost use Rattle.std.specs.Prelude.{◌≡◌};
ghost use Rattle.walk.specs.Twins.Leaves.{leaf_left, leaf_met};

use lines::end::meet_end;
use linking::code::link_at;
use positions::position::Bounds;
use turns::choice::{is_result, lines_kept};
use turns::state::{State, Turn, after_end, cut};

pub(crate) fn meet_leaf(
    code: &[u16; 24582],
    heap: &mut [u16; 65535],
    frame: &mut [u16; 12360],
    q: &mut [u16; 4096],
    answer: &mut [u16],
    s: State,
    b: Bounds,
) -> Turn
    ensures { leaf_left result heap.new frame.new q.new answer.new ≡ leaf_met code.now b s heap.old frame.old q.old answer.old }
{
    let n = s.at.node;
    let l = link_at(code, n.at.place);
    if is_result(l.mark) {
        let table = lines_kept(b);
        let e = meet_end(code, heap, frame, q, answer, n, table, s.found.lines);
        return after_end(s, e);
    }
    Ok(cut(s))
}
