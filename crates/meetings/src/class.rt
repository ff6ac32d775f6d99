// What meets: the inputs and then the wanted output w are the first entries of the frame, the output u is the next one, q holds the non-equalities.
ghost use Rattle.std.specs.Prelude.{◌≡◌, min, ◌-◌, ◌≤◌};
ghost use Rattle.heap.specs.Twins.Entries.{entry_from, entry_to};
ghost use Rattle.meetings.specs.Twins.Classes.{place_in, class_nodes, sized_by, grown_by, bindings_in};

use heap::entry;
use restrictions::failure::Failure;
use std::ops::ControlFlow;

// "over 4,096 nodes"
pub const NODES: usize = 4096;

// How many entries the inputs and w are, what is used of the heap, the non-equalities; what is written stands from `floor` on.
#[derive(Clone, Copy)]
pub struct Class {
    pub entries: usize,
    pub used: usize,
    pub neqs: usize,
    pub floor: usize,
}

// What is left; where there is a contradiction, nothing is. Over: 21.
pub type Met = Result<Class, Failure>;

// One binding on: the class now, or the end.
pub type Step = ControlFlow<Met, Class>;

// Where an entry's value stands.
#[derive(Clone, Copy)]
pub(crate) struct Place {
    pub from: usize,
    pub to: usize,
}

// The entry i; past the last one, that.
pub(crate) fn entry_at(frame: &[u16; 12360], i: usize) -> Place
    ensures { result ≡ place_in i frame.now }
{
    let j = i.min(4119);
    Place {
        from: frame[3 * j + 1] as usize,
        to: frame[3 * j + 2] as usize,
    }
}

// The nodes of the entry i.
pub(crate) fn entry_size(frame: &[u16; 12360], i: usize) -> usize
    ensures { (result ≡ entry_to frame.now (min i 4119) - entry_from frame.now (min i 4119)) × (result ≤ 65535) }
{
    let j = i.min(4119);
    let from = frame[3 * j + 1] as usize;
    let to = frame[3 * j + 2] as usize;
    to.saturating_sub(from)
}

// The entry of u.
pub(crate) fn output_entry(c: Class) -> usize
    ensures { result ≡ min c.entries 4119 }
{
    c.entries.min(4119)
}

// The entry of w, before it.
pub(crate) fn wanted_entry(c: Class) -> usize
    ensures { result ≡ min c.entries 4119 - 1 }
{
    output_entry(c).saturating_sub(1)
}

// "inputs, wanted output and environment values .., plus 2 for each non-equality. In the intersection the output u stands for the environment." A count
// above 4,097 is as one of 4,097.
pub(crate) fn class_nodes(frame: &[u16; 12360], c: Class) -> usize
    ensures { result ≡ class_nodes c frame.now }
{
    let n = entry::nodes(frame, output_entry(c) + 1);
    n.min(4097) + 2 * c.neqs.min(4097)
}

// "21 .. after a binding"
pub(crate) fn size_test(frame: &[u16; 12360], c: Class) -> Step
    ensures { result ≡ sized_by c frame.now }
{
    if NODES < class_nodes(frame, c) {
        return ControlFlow::Break(Err(Failure::Over));
    }
    ControlFlow::Continue(c)
}

// What contracting the entries left: where the heap has no room for them, they are over 21 too.
pub(crate) fn grown(frame: &[u16; 12360], c: Class, w: Option<usize>) -> Step
    ensures { result ≡ grown_by c w frame.now }
{
    match w {
        Some(used) => size_test(frame, Class { used, ..c }),
        None => ControlFlow::Break(Err(Failure::Over)),
    }
}

// Each binding removes a variable from w and u, and these have no more variables than nodes.
pub(crate) fn bindings_enough(frame: &[u16; 12360], c: Class) -> usize
    ensures { result ≡ bindings_in c frame.now }
{
    let w = entry_size(frame, wanted_entry(c));
    let u = entry_size(frame, output_entry(c));
    w + u + 1
}
