// The branches of a `cons?` on what is a pair or an atom already: its names are bound to ranges of the heap, and nothing is copied.
ghost use Rattle.std.specs.Prelude.{◌≡◌};
ghost use Rattle.heap.specs.Twins.Entries.{push_answer};
ghost use Rattle.looking.specs.Twins.Taking.{parts_bound, placed_with, taken, pair_taken, atom_taken};

use heap::configuration::Configuration;
use heap::entry::push_entry;
use linking::code::link_at;
use restrictions::failure::Failure;

// "its head and tail are then bound to the two xe": an entry each, behind those there are.
pub fn bind_parts(
    frame: &mut [u16; 12360],
    entries: usize,
    from: usize,
    mid: usize,
    to: usize,
) -> Option<usize>
    ensures { push_answer result frame.new ≡ parts_bound entries from mid to frame.old }
{
    let n = push_entry(frame, entries, 0, from, mid)?;
    push_entry(frame, n, 0, mid, to)
}

// With the names bound, at a branch.
fn placed_with(
    c: Configuration,
    used: usize,
    place: usize,
    p: Option<usize>,
) -> Result<Configuration, Failure>
    ensures { result ≡ placed_with c used place p }
{
    let entries = p.ok_or(Failure::Over)?;
    Ok(Configuration {
        entries,
        used,
        place,
        ..c
    })
}

// The true branch on a pair with these parts.
pub fn take_pair(
    code: &[u16; 24582],
    frame: &mut [u16; 12360],
    c: Configuration,
    from: usize,
    mid: usize,
    to: usize,
    used: usize,
) -> Result<Configuration, Failure>
    ensures { taken result frame.new ≡ pair_taken code.now c from mid to used frame.old }
{
    let place = usize::from(link_at(code, c.place).first);
    let p = bind_parts(frame, c.entries, from, mid, to);
    placed_with(c, used, place, p)
}

// The false branch on an atom: "the atom is bound to xa".
pub fn take_atom(
    code: &[u16; 24582],
    frame: &mut [u16; 12360],
    c: Configuration,
    from: usize,
    to: usize,
    used: usize,
) -> Result<Configuration, Failure>
    ensures { taken result frame.new ≡ atom_taken code.now c from to used frame.old }
{
    let place = usize::from(link_at(code, c.place).second);
    let p = push_entry(frame, c.entries, 0, from, to);
    placed_with(c, used, place, p)
}
