// The branches of a `cons?` on a `?e`: "true gives a pair of two fresh `?e`, false a fresh `?a`", "three numbers ..: head, tail, atom" on both. The new
// value's cells stand behind what is used. The names are bound before the contraction, and their values are filled with the others.
ghost use Rattle.std.specs.Prelude.{◌≡◌};
ghost use Rattle.heap.specs.Twins.Moving.{moved};
ghost use Rattle.pairs.specs.Twins.Splitting.{contracted_all, bound_contracted, pair_made, atom_made, pair_split, atom_split};

use heap::configuration::{Configuration, grown};
use heap::contract::contract_entries;
use heap::entry::push_entry;
use linking::code::link_at;
use looking::take::bind_parts;
use restrictions::failure::Failure;
use runs::run;
use sets::contraction;
use sets::counter::Counter;

// All entries with the run from `from` up to what is used in the place of each x.
fn contract_all(
    heap: &mut [u16; 65535],
    frame: &mut [u16; 12360],
    c: Configuration,
    x: u16,
    from: usize,
) -> Result<Configuration, Failure>
    ensures { moved result heap.new frame.new ≡ contracted_all c x from heap.old frame.old }
{
    let w = contract_entries(heap, frame, 0, c.entries, x, from, c.used, c.used);
    grown(c, c.neqs, w)
}

// With the names bound, x contracted at a branch.
fn bound_contracted(
    heap: &mut [u16; 65535],
    frame: &mut [u16; 12360],
    c: Configuration,
    x: u16,
    used: usize,
    place: usize,
    next: u16,
    p: Option<usize>,
) -> Result<Configuration, Failure>
    ensures { moved result heap.new frame.new ≡ bound_contracted c x used place next p heap.old frame.old }
{
    let entries = p.ok_or(Failure::Over)?;
    let d = Configuration {
        entries,
        used,
        place,
        counter: next,
        ..c
    };
    contract_all(heap, frame, d, x, c.used)
}

// The pair of two variables in the place of x.
fn make_pair(
    code: &[u16; 24582],
    heap: &mut [u16; 65535],
    frame: &mut [u16; 12360],
    c: Configuration,
    x: u16,
    head: u16,
    tail: u16,
    next: u16,
) -> Result<Configuration, Failure>
    ensures { moved result heap.new frame.new ≡ pair_made code.now c x head tail next heap.old frame.old }
{
    let used = c.used;
    if 65532 < used {
        return Err(Failure::Over);
    }
    let place = usize::from(link_at(code, c.place).first);
    run::append_pair(heap, head, tail, used);
    let p = bind_parts(frame, c.entries, used + 1, used + 2, used + 3);
    bound_contracted(heap, frame, c, x, used + 3, place, next, p)
}

// The `?a` in the place of x.
fn make_atom(
    code: &[u16; 24582],
    heap: &mut [u16; 65535],
    frame: &mut [u16; 12360],
    c: Configuration,
    x: u16,
    atom: u16,
    next: u16,
) -> Result<Configuration, Failure>
    ensures { moved result heap.new frame.new ≡ atom_made code.now c x atom next heap.old frame.old }
{
    let used = c.used;
    if 65534 < used {
        return Err(Failure::Over);
    }
    let place = usize::from(link_at(code, c.place).second);
    heap[used] = atom;
    let p = push_entry(frame, c.entries, 0, used, used + 1);
    bound_contracted(heap, frame, c, x, used + 1, place, next, p)
}

// The true branch on the `?e` x.
pub fn split_pair(
    code: &[u16; 24582],
    heap: &mut [u16; 65535],
    frame: &mut [u16; 12360],
    c: Configuration,
    x: u16,
) -> Result<Configuration, Failure>
    ensures { moved result heap.new frame.new ≡ pair_split code.now c x heap.old frame.old }
{
    let counter = Counter { next: c.counter };
    let f = counter.take().ok_or(Failure::Over)?;
    let head = contraction::code(f.head, 2);
    let tail = contraction::code(f.tail, 2);
    make_pair(code, heap, frame, c, x, head, tail, f.next.next)
}

// The false branch on the `?e` x.
pub fn split_atom(
    code: &[u16; 24582],
    heap: &mut [u16; 65535],
    frame: &mut [u16; 12360],
    c: Configuration,
    x: u16,
) -> Result<Configuration, Failure>
    ensures { moved result heap.new frame.new ≡ atom_split code.now c x heap.old frame.old }
{
    let counter = Counter { next: c.counter };
    let f = counter.take().ok_or(Failure::Over)?;
    let atom = contraction::code(f.atom, 3);
    make_atom(code, heap, frame, c, x, atom, f.next.next)
}
