// Room for a transition: what is written along a path and no longer in use is given back before the heap is full.
ghost use Rattle.std.specs.Prelude.{◌≡◌};
ghost use Rattle.replay.specs.Twins.Rooms.{floor_top, room_left, made_room};

use compaction::compact::compact;
use positions::position::{Position, position_at};
use positions::used::{is_full, is_tight, with_used};
use saving::head::used_at;
use saving::saved::older_used;

// Where the heap is full, the newer saved configurations are forgotten.
fn floor_top(saved: &[u16; 16384], used: usize, top: usize, base: usize) -> usize
    ensures { result ≡ floor_top used top base saved.now }
{
    if is_full(used) {
        return older_used(saved, top, base);
    }
    top
}

// The values in use put together behind what the latest saved configuration has in use; nothing below that changes.
pub fn make_room(
    heap: &mut [u16; 65535],
    frame: &mut [u16; 12360],
    saved: &[u16; 16384],
    p: Position,
    base: usize,
) -> Position
    ensures { room_left result heap.new frame.new ≡ made_room base p saved.now heap.old frame.old }
{
    let n = p.node;
    let c = n.at;
    if is_tight(c.used, used_at(saved, p.top)) {
        let t = floor_top(saved, c.used, p.top, base);
        let used = compact(heap, frame, c.entries, used_at(saved, t), c.used);
        return position_at(n, with_used(c, used), t);
    }
    p
}

// The same, for a caller that has room nearly always: only where there is none is the position handed on.
pub fn have_room(
    heap: &mut [u16; 65535],
    frame: &mut [u16; 12360],
    saved: &[u16; 16384],
    p: Position,
    base: usize,
) -> Position
    ensures { room_left result heap.new frame.new ≡ made_room base p saved.now heap.old frame.old }
{
    let n = p.node;
    let c = n.at;
    if is_tight(c.used, used_at(saved, p.top)) {
        return make_room(heap, frame, saved, p, base);
    }
    p
}
