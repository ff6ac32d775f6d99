// Compaction: the values in use put together, one behind the other from a place on. No spare storage: they are written behind what is used, and then
// all moved down.
ghost use Rattle.std.specs.Prelude.{◌≡◌, ◌-◌, ◌<◌, ◌≤◌};
ghost use Rattle.heap.specs.Twins.Contracted.{stores};
ghost use Rattle.compaction.specs.Twins.Compacting.{relocated_entry, relocated_entries, cells_moved, compaction, compacted};

use heap::entry;
use runs::run;

// The value of the entry i once more behind what is used, if it does not lie below `floor`, and the entry with its range `down` cells lower: where it will
// stand. What is used then.
fn relocate_entry(
    heap: &mut [u16; 65535],
    frame: &mut [u16; 12360],
    i: usize,
    floor: usize,
    down: usize,
    used: usize,
) -> Option<usize>
    requires { i < 4120 }
    ensures { stores result heap.new frame.new ≡ relocated_entry i floor down used heap.old frame.old }
{
    let from = usize::from(frame[3 * i + 1]);
    let to = usize::from(frame[3 * i + 2]);
    if to <= floor {
        return Some(used);
    }
    let now = run::append(heap, from, to, used)?;
    let known = frame[3 * i];
    entry::push_entry(
        frame,
        i,
        known,
        used.saturating_sub(down),
        now.saturating_sub(down),
    );
    Some(now)
}

// The same for the first n entries.
fn relocate_entries(
    heap: &mut [u16; 65535],
    frame: &mut [u16; 12360],
    n: usize,
    floor: usize,
    down: usize,
    used: usize,
) -> Option<usize>
    ensures { stores result heap.new frame.new ≡ relocated_entries n floor down used heap.old frame.old }
{
    let end = n.min(entry::ENTRIES);
    let mut now = used;
    for i in 0..end {
        now = relocate_entry(heap, frame, i, floor, down, now)?;
    }
    Some(now)
}

// The cells from `from` up to `to` again at `at`, which lies before them.
fn move_cells(heap: &mut [u16; 65535], from: usize, to: usize, at: usize)
    requires { at ≤ from }
    ensures { heap.new ≡ cells_moved from to at heap.old }
{
    let end = to.min(run::SIZE);
    if from < end {
        heap.copy_within(from..end, at);
    }
}

// The values of the first n entries, as far as they do not lie below `floor`, together from `floor` on: what is used then. Nothing below `floor`
// changes. Where they have no room to be written once more, the answer is what is used now.
pub fn compact(
    heap: &mut [u16; 65535],
    frame: &mut [u16; 12360],
    n: usize,
    floor: usize,
    used: usize,
) -> usize
    ensures { compaction result heap.new frame.new ≡ compacted n floor used heap.old frame.old }
{
    if used < floor {
        return used;
    }
    let down = used - floor;
    let Some(k) = relocate_entries(heap, frame, n, floor, down, used) else {
        return used;
    };
    move_cells(heap, used, k, floor);
    k.saturating_sub(down)
}
