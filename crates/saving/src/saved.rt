// Saved configurations, one behind the other, the latest on top. Of each the cells of its entries, those of its non-equalities and its numbers: what it
// has in the heap stays there. To forget newer ones is always allowed.
ghost use Rattle.std.specs.Prelude.{◌≡◌};
ghost use Rattle.saving.specs.Twins.Saving.{size_of, stored, allowed_at, is_low, older_top, older_used, place_for, save_left, saved_to, load_left, loaded};

use crate::head;
use crate::head::{LENGTH, Node};
use sets::tree;

// Where this storage is full, the records stay that end in its first half.
const HALF: usize = 8192;

// Where the heap is full, those stay that have at most a quarter of it in use, or half as much again where the records before them were forgotten.
const QUARTER: usize = 16384;

// Between two records that follow each other in storage there are at most so many choices, unless those between were forgotten.
const GAP: usize = 8;

// No configuration has more in use.
const ALL: usize = 65535;

// A saved one, and where its cells begin.
#[derive(Clone, Copy)]
pub struct Back {
    pub node: Node,
    pub top: usize,
}

// How many cells a record takes.
fn size_of(n: Node) -> usize
    ensures { result ≡ size_of n }
{
    let c = n.at;
    head::entry_cells(c.entries) + head::side_cells(c.neqs) + head::HEAD
}

// The node with its cells, from `at` on.
fn store(frame: &[u16; 12360], q: &[u16; 4096], saved: &mut [u16; 16384], n: Node, at: usize)
    ensures { saved.new ≡ stored frame.now q.now n at saved.old }
{
    let c = n.at;
    let entries = head::entry_cells(c.entries);
    let sides = head::side_cells(c.neqs);
    let e = at.min(LENGTH);
    let s = e + entries;
    let h = s + sides;
    tree::copy(frame, 0, entries, saved, e);
    tree::copy(q, 0, sides, saved, s);
    head::store_head(saved, n, h);
}

// How much of the heap the record that ends at t may have in use where others may `used`: half as much again where many choices lie between it and the one
// before it. Of a long path a record stays each time that newer ones are forgotten, and going back works out what lies between two of them, not all again.
fn allowed(saved: &[u16; 16384], t: usize, used: usize) -> usize
    ensures { result ≡ allowed_at saved.now used t }
{
    let n = used.min(ALL);
    let before = head::depth_at(saved, head::begins_at(saved, t));
    if before.min(ALL) + GAP < head::depth_at(saved, t) {
        return n + n / 2;
    }
    n
}

// Whether the records up to t take at most `size` cells and the last of them has no more of the heap in use than is allowed.
fn is_low(saved: &[u16; 16384], t: usize, size: usize, used: usize) -> bool
    ensures { result ≡ is_low saved.now size used t }
{
    t <= size && head::used_at(saved, t) <= allowed(saved, t, used)
}

// The top without the newer records, as many as are needed for the rest to be low; those up to `base` stay.
fn older(saved: &[u16; 16384], top: usize, base: usize, size: usize, used: usize) -> usize
    ensures { result ≡ older_top saved.now base size used top }
{
    let mut t = top;
    while base < t {
        if is_low(saved, t, size, used) {
            return t;
        }
        t = head::begins_at(saved, t);
    }
    base
}

// The heap is full: the top without the newer records, as many as are needed for the top one to have at most a quarter of it in use. Never below `base`.
pub fn older_used(saved: &[u16; 16384], top: usize, base: usize) -> usize
    ensures { result ≡ older_used saved.now top base }
{
    older(saved, top, base, LENGTH, QUARTER)
}

// Where a record of that size goes: on top or, where it does not fit there, behind those that take at most half.
fn place_for(saved: &[u16; 16384], size: usize, top: usize, base: usize) -> usize
    ensures { result ≡ place_for saved.now size top base }
{
    let t = top.min(LENGTH);
    if size <= LENGTH - t {
        return t;
    }
    older(saved, t, base, HALF, ALL)
}

// Saves a node on top of the others; where it does not fit there, the newer of them are forgotten. The first, which ends at `base`, stays. The top as
// it is then.
pub fn save(
    frame: &[u16; 12360],
    q: &[u16; 4096],
    saved: &mut [u16; 16384],
    n: Node,
    top: usize,
    base: usize,
) -> usize
    ensures { save_left result saved.new ≡ saved_to frame.now q.now n top base saved.old }
{
    let size = size_of(n);
    let t = place_for(saved, size, top, base).min(LENGTH);
    if size <= LENGTH - t {
        store(frame, q, saved, n, t);
        return t + size;
    }
    t
}

// Brings the configuration back whose record ends at `top`.
pub fn load(saved: &[u16; 16384], top: usize, frame: &mut [u16; 12360], q: &mut [u16; 4096]) -> Back
    ensures { load_left result frame.new q.new ≡ loaded saved.now top frame.old q.old }
{
    let h = head::head_start(top);
    let n = head::read_head(saved, h);
    let c = n.at;
    let entries = head::entry_cells(c.entries);
    let sides = head::side_cells(c.neqs);
    let from = head::begins_at(saved, top);
    let s = h.saturating_sub(sides);
    tree::copy(saved, from, entries, frame, 0);
    tree::copy(saved, s, sides, q, 0);
    Back { node: n, top: from }
}
