// The arguments of a call (001, figure 4: "the values of the arguments"): an entry for each, behind those there are.
ghost use Rattle.std.specs.Prelude.{◌≡◌};
ghost use Rattle.calls.specs.Twins.Arguments.{counted, taken_as, argue_left, argument_at, arguments_at};

use heap::entry::push_entry;
use linking::code::{NAME, link_at};
use values::tokens::{entry_at, place_at};
use values::value::value;

// The entries there are, what is used of the heap, and the nodes.
#[derive(Clone, Copy)]
pub struct Argued {
    pub entries: usize,
    pub used: usize,
    pub nodes: usize,
}

// The nodes with those of a range; more than 4,097 of either are all alike.
fn count(nodes: usize, from: usize, to: usize) -> usize
    ensures { result ≡ counted nodes from to }
{
    nodes.min(4098) + to.saturating_sub(from).min(4098)
}

// None: 21, "over 4,097 nodes", or no room for the entry.
fn taken(p: Option<usize>, used: usize, nodes: usize) -> Option<Argued>
    ensures { result ≡ taken_as p used nodes }
{
    let entries = p?;
    if 4097 < nodes {
        return None;
    }
    Some(Argued {
        entries,
        used,
        nodes,
    })
}

// The argument at i, its entry behind those there are: of a name that of its own entry, at once.
fn argument(
    code: &[u16; 24582],
    heap: &mut [u16; 65535],
    frame: &mut [u16; 12360],
    base: usize,
    a: Argued,
    i: usize,
) -> Option<Argued>
    ensures { argue_left result heap.new frame.new ≡ argument_at code.now base a.entries a.used a.nodes i heap.old frame.old }
{
    let l = link_at(code, i);
    if l.mark == NAME {
        let e = entry_at(frame, place_at(base, l.first));
        let p = push_entry(frame, a.entries, e.known, e.from, e.to);
        return taken(p, a.used, count(a.nodes, e.from, e.to));
    }
    let v = value(code, heap, frame, base, a.used, i)?;
    let p = push_entry(frame, a.entries, v.known, v.from, v.to);
    taken(p, v.used, count(a.nodes, v.from, v.to))
}

// n arguments from i on, behind what there is so far.
pub fn arguments(
    code: &[u16; 24582],
    heap: &mut [u16; 65535],
    frame: &mut [u16; 12360],
    base: usize,
    so_far: Argued,
    i: usize,
    n: usize,
) -> Option<Argued>
    ensures { argue_left result heap.new frame.new ≡ arguments_at code.now base n so_far.entries so_far.used so_far.nodes i heap.old frame.old }
{
    let mut a = so_far;
    let mut j = i;
    for _ in 0..n {
        let l = link_at(code, j);
        a = argument(code, heap, frame, base, a, j)?;
        j = usize::from(l.past);
    }
    Some(a)
}
