// The numbers of a saved configuration, which stand behind its cells: the steps and the choices that lead to it, and its struct.
ghost use Rattle.std.specs.Prelude.{◌≡◌, ◌-◌};
ghost use Rattle.saving.specs.Twins.Heads.{entry_cells, side_cells, number_at, head_start, node_at, head_stored, used_at, depth_at, begins_at};

use cells::cell;
use heap::configuration::Configuration;
use heap::entry;
use sets::tree;

// The cells of the storage.
pub const LENGTH: usize = 16384;

// The numbers of a head.
pub const HEAD: usize = 9;

// A node of the tree of configurations: its configuration, the steps and the choices that lead to it.
#[derive(Clone, Copy)]
pub struct Node {
    pub at: Configuration,
    pub steps: usize,
    pub depth: usize,
}

// The cells of so many entries, as far as a frame has them.
pub(crate) fn entry_cells(entries: usize) -> usize
    ensures { result ≡ entry_cells entries }
{
    3 * entries.min(entry::ENTRIES)
}

// The cells of so many non-equalities, as far as q has them.
pub(crate) fn side_cells(neqs: usize) -> usize
    ensures { result ≡ side_cells neqs }
{
    2 * neqs.min(2048)
}

// Where the head of the record begins that ends at `top`.
pub(crate) fn head_start(top: usize) -> usize
    ensures { result ≡ head_start top }
{
    top.min(LENGTH).saturating_sub(HEAD)
}

// The cell k of the head that begins at h; 0 past the end.
fn cell_at(saved: &[u16; 16384], h: usize, k: u16) -> u16
    ensures { result ≡ number_at saved.now h k }
{
    cell::cell(saved, h.min(LENGTH) + usize::from(k))
}

// The same as a number.
fn number(saved: &[u16; 16384], h: usize, k: u16) -> usize
    ensures { result ≡ number_at saved.now h k }
{
    usize::from(cell_at(saved, h, k))
}

// The node whose numbers stand at h.
pub(crate) fn read_head(saved: &[u16; 16384], h: usize) -> Node
    ensures { result ≡ node_at saved.now h }
{
    let c = Configuration {
        inputs: number(saved, h, 2),
        outputs: number(saved, h, 3),
        entries: number(saved, h, 4),
        used: number(saved, h, 5),
        neqs: number(saved, h, 6),
        place: number(saved, h, 7),
        counter: cell_at(saved, h, 8),
    };
    Node {
        at: c,
        steps: number(saved, h, 0),
        depth: number(saved, h, 1),
    }
}

// The numbers of a node from h on, each clipped to what a cell holds.
pub(crate) fn store_head(saved: &mut [u16; 16384], n: Node, h: usize)
    ensures { saved.new ≡ head_stored n h saved.old }
{
    let c = n.at;
    let head: [u16; 9] = [
        cell::narrow(n.steps),
        cell::narrow(n.depth),
        cell::narrow(c.inputs),
        cell::narrow(c.outputs),
        cell::narrow(c.entries),
        cell::narrow(c.used),
        cell::narrow(c.neqs),
        cell::narrow(c.place),
        c.counter,
    ];
    tree::copy(&head, 0, HEAD, saved, h);
}

// How much of the heap the configuration has in use whose record ends at `top`.
pub fn used_at(saved: &[u16; 16384], top: usize) -> usize
    ensures { result ≡ used_at saved.now top }
{
    number(saved, head_start(top), 5)
}

// How many choices lead to the configuration whose record ends at `top`.
pub(crate) fn depth_at(saved: &[u16; 16384], top: usize) -> usize
    ensures { result ≡ depth_at saved.now top }
{
    number(saved, head_start(top), 1)
}

// Where the record begins that ends at `top`.
pub(crate) fn begins_at(saved: &[u16; 16384], top: usize) -> usize
    ensures { result ≡ begins_at saved.now top }
{
    let h = head_start(top);
    let sides = side_cells(number(saved, h, 6));
    let entries = entry_cells(number(saved, h, 4));
    h.saturating_sub(sides).saturating_sub(entries)
}
