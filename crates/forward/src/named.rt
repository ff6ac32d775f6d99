// The value of a name at an end. "Its nodes are those of the inputs and the environment values, at an end of the inputs and the output": the environment
// of an end may be of any size, so that it is never made. A name's value is worked out where the output has it, in the environment before.
ghost use Rattle.std.specs.Prelude.{◌≡◌, ◌≤◌, Some};
ghost use Rattle.values.specs.Twins.Values.{valued, value_left};
ghost use Rattle.looking.specs.Twins.Looking.{test_at};
ghost use Rattle.forward.specs.Twins.Naming.{argument_from, own_at, argument_named, part_index, tested_named, named_at};

use heap::configuration::Configuration;
use linking::code::link_at;
use looking::look::Tested;
use tracing::ask::Asked;
use values::names::{names_from, names_in};
use values::value::{Valued, value};

// The index of an argument, so many behind the one at i.
fn argument_from(code: &[u16; 24582], q: u16, i: usize) -> usize
    ensures { result ≡ argument_from code.now q i }
{
    let mut j = i;
    for _ in 0..q {
        j = usize::from(link_at(code, j).past);
    }
    j
}

// The token where the arguments of a call begin, or what a `cons?` tests.
fn inner(c: Configuration) -> usize
    ensures { (result ≡ test_at c) × (result ≤ 4101) }
{
    c.place.min(4097) + 4
}

// The value of the expression at i in the configuration's environment.
fn own_value(
    code: &[u16; 24582],
    heap: &mut [u16; 65535],
    frame: &[u16; 12360],
    c: Configuration,
    i: usize,
) -> Option<Valued>
    ensures { value_left result heap.new ≡ own_at code.now c i heap.old frame.now }
{
    value(code, heap, frame, names_from(c), c.used, i)
}

// Behind a call a name is a parameter: its value is that of the argument with its place.
fn argument_value(
    code: &[u16; 24582],
    heap: &mut [u16; 65535],
    frame: &[u16; 12360],
    c: Configuration,
    q: u16,
) -> Option<Valued>
    ensures { value_left result heap.new ≡ argument_named code.now c q heap.old frame.now }
{
    let i = argument_from(code, q, inner(c));
    own_value(code, heap, frame, c, i)
}

// The part of the `cons` that is tested to which the name with the place q is bound, or the name's own token j. What the heap has no room for is a `cons`
// of the program.
fn part_index(code: &[u16; 24582], c: Configuration, q: u16, j: usize) -> usize
    ensures { result ≡ part_index code.now c q j }
{
    let n = names_in(c);
    let place = usize::from(q);
    if place < n {
        return j;
    }
    let i = inner(c) + 2;
    if place == n {
        return i;
    }
    usize::from(link_at(code, i).past)
}

// A range of which nothing more is known.
fn plain(from: usize, to: usize, used: usize) -> Option<Valued>
    ensures { result ≡ Some (valued from to used 0) }
{
    Some(Valued {
        from,
        to,
        used,
        known: 0,
    })
}

// Behind a `cons?`: its names are bound to the atom, or to the parts of the pair; the others are what they were.
fn tested_value(
    code: &[u16; 24582],
    heap: &mut [u16; 65535],
    frame: &[u16; 12360],
    c: Configuration,
    t: Tested,
    q: u16,
    j: usize,
) -> Option<Valued>
    ensures { value_left result heap.new ≡ tested_named code.now c t q j heap.old frame.now }
{
    let n = names_in(c);
    let place = usize::from(q);
    match t {
        Tested::Atom { from, to, used } => {
            if place < n {
                return own_value(code, heap, frame, c, j);
            }
            plain(from, to, used)
        }
        Tested::Pair {
            from,
            mid,
            to,
            used,
        } => {
            if place < n {
                return own_value(code, heap, frame, c, j);
            }
            if place == n {
                return plain(from, mid, used);
            }
            plain(mid, to, used)
        }
        Tested::Variable { .. } => None,
        Tested::Large => own_value(code, heap, frame, c, part_index(code, c, q, j)),
    }
}

// The value of the name at j, behind the configuration's term and what it asked.
pub(crate) fn name_value(
    code: &[u16; 24582],
    heap: &mut [u16; 65535],
    frame: &[u16; 12360],
    c: Configuration,
    a: Asked,
    j: usize,
) -> Option<Valued>
    ensures { value_left result heap.new ≡ named_at code.now c a j heap.old frame.now }
{
    let q = link_at(code, j).first;
    match a {
        Asked::End => own_value(code, heap, frame, c, j),
        Asked::Call => argument_value(code, heap, frame, c, q),
        Asked::Same { .. } => own_value(code, heap, frame, c, j),
        Asked::Test(t) => tested_value(code, heap, frame, c, t, q, j),
    }
}
