// What a `cons?` tests: the value of its expression, by the first cell.
ghost use Rattle.std.specs.Prelude.{◌≡◌};
ghost use Rattle.looking.specs.Twins.Looking.{head_end_in, tested_at, look_left, look_at};

use heap::configuration::Configuration;
use sets::tree;
use values::names::names_from;
use values::value::value;

// Atom: an atom or a `?a` in this range. Pair: its head from `from` up to `mid`, its tail from there. Variable: a `?e`, which only a name's value is, so that
// nothing was written. Large: the heap has no room for the value. `used` is what is used of the heap with the value in it.
#[derive(Clone, Copy)]
pub enum Tested {
    Atom {
        from: usize,
        to: usize,
        used: usize,
    },
    Pair {
        from: usize,
        mid: usize,
        to: usize,
        used: usize,
    },
    Variable {
        var: u16,
    },
    Large,
}

// Where the head ends that begins at a place: n cells on, where that is known.
fn head_end(heap: &[u16; 65535], at: usize, n: u16) -> usize
    ensures { result ≡ head_end_in at n heap.now }
{
    if n == 0 {
        return tree::tree_end(heap, at);
    }
    at.min(65535) + usize::from(n)
}

// A range by its first cell.
fn test_range(heap: &[u16; 65535], from: usize, to: usize, used: usize, known: u16) -> Tested
    ensures { result ≡ tested_at from to used known heap.now }
{
    if 65534 < from {
        return Tested::Large;
    }
    let x = heap[from];
    if x == tree::PAIR {
        let end = head_end(heap, from + 1, known / 2);
        return Tested::Pair {
            from: from + 1,
            mid: end.min(to),
            to,
            used,
        };
    }
    if x % 4 == 2 {
        return Tested::Variable { var: x };
    }
    Tested::Atom { from, to, used }
}

// What the `cons?` at the configuration's place tests: its expression begins four tokens on.
pub fn look(
    code: &[u16; 24582],
    heap: &mut [u16; 65535],
    frame: &[u16; 12360],
    c: Configuration,
) -> Tested
    ensures { look_left result heap.new ≡ look_at code.now c heap.old frame.now }
{
    let i = c.place.min(4097) + 4;
    match value(code, heap, frame, names_from(c), c.used, i) {
        Some(v) => test_range(heap, v.from, v.to, v.used, v.known),
        None => Tested::Large,
    }
}
