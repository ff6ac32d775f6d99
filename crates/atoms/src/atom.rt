// The two sides of an `eqa?`, each the code of a symbol or of a `?a`.
ghost use Rattle.std.specs.Prelude.{◌≡◌};
ghost use Rattle.atoms.specs.Twins.Atoms.{first_cell, atom_at, sides_at};

use heap::configuration::Configuration;
use linking::code::{CELL, NAME, link_at};
use values::names::names_from;

#[derive(Clone, Copy)]
pub struct Sides {
    pub left: u16,
    pub right: u16,
}

// The first cell of the value that the entry i holds: all of it where the value is atomic.
fn first_cell(heap: &[u16; 65535], frame: &[u16; 12360], i: usize) -> u16
    ensures { result ≡ first_cell heap.now frame.now i }
{
    if 4120 <= i {
        return 0;
    }
    let from = usize::from(frame[3 * i + 1]);
    if 65535 <= from {
        return 0;
    }
    heap[from]
}

// The value of the ea at i (001, figure 3: a name `a.x` or a symbol), the names' entries from `base` on; 0 where there is none.
pub fn atom_at(
    code: &[u16; 24582],
    heap: &[u16; 65535],
    frame: &[u16; 12360],
    base: usize,
    i: usize,
) -> u16
    ensures { result ≡ atom_at code.now heap.now frame.now base i }
{
    let l = link_at(code, i);
    match l.mark {
        CELL => l.first,
        NAME => first_cell(heap, frame, base.min(4120) + usize::from(l.first)),
        _ => 0,
    }
}

// The values of the two sides of the `eqa?` at the configuration's place: the first begins four tokens on, the second behind it.
pub fn sides_at(
    code: &[u16; 24582],
    heap: &[u16; 65535],
    frame: &[u16; 12360],
    c: Configuration,
) -> Sides
    ensures { result ≡ sides_at code.now heap.now frame.now c }
{
    let base = names_from(c);
    let i = c.place.min(4097) + 4;
    let past = usize::from(link_at(code, i).past);
    let left = atom_at(code, heap, frame, base, i);
    let right = atom_at(code, heap, frame, base, past);
    Sides { left, right }
}
