// The cells that tokens give, written one behind the other.
ghost use Rattle.std.specs.Prelude.{◌≡◌, ◌-◌, ◌∷◌, []};
ghost use Rattle.sets.specs.Twins.Fill.{fill_answer};
ghost use Rattle.runs.specs.Twins.Runs.{written};
ghost use Rattle.values.specs.Twins.Values.{entry_at, place_at, token_written, tokens_written};

use linking::code::{CELL, NAME, link_at};
use runs::run;

// Where an entry's value stands, and what is known of it.
#[derive(Clone, Copy)]
pub struct Place {
    pub from: usize,
    pub to: usize,
    pub known: u16,
}

// The entry i; nothing past the last one.
pub fn entry_at(frame: &[u16; 12360], i: usize) -> Place
    ensures { result ≡ entry_at frame.now i }
{
    if i < 4120 {
        return Place {
            from: usize::from(frame[3 * i + 1]),
            to: usize::from(frame[3 * i + 2]),
            known: frame[3 * i],
        };
    }
    Place {
        from: 0,
        to: 0,
        known: 0,
    }
}

// The entry of the name with this place, the names' entries from `base` on.
pub fn place_at(base: usize, place: u16) -> usize
    ensures { result ≡ place_at base place }
{
    base.min(4120) + usize::from(place)
}

fn push_cell(heap: &mut [u16; 65535], c: u16, k: usize) -> Option<usize>
    ensures { fill_answer result heap.new ≡ written k 1 (c ∷ []) heap.old }
{
    if 65534 < k {
        return None;
    }
    heap[k] = c;
    Some(k + 1)
}

// The cells of the token j, at k: a symbol's or a pair's own, a name's value.
fn push_token(
    code: &[u16; 24582],
    heap: &mut [u16; 65535],
    frame: &[u16; 12360],
    base: usize,
    k: usize,
    j: usize,
) -> Option<usize>
    ensures { fill_answer result heap.new ≡ token_written code.now frame.now base j k heap.old }
{
    let l = link_at(code, j);
    match l.mark {
        CELL => push_cell(heap, l.first, k),
        NAME => {
            let e = entry_at(frame, place_at(base, l.first));
            run::append(heap, e.from, e.to, k)
        }
        _ => Some(k),
    }
}

// Those of the tokens from i up to `to`, at `used`: what is used then, and None where the heap has no room.
pub(crate) fn push_tokens(
    code: &[u16; 24582],
    heap: &mut [u16; 65535],
    frame: &[u16; 12360],
    base: usize,
    used: usize,
    i: usize,
    to: usize,
) -> Option<usize>
    ensures { fill_answer result heap.new ≡ tokens_written code.now frame.now base (to - i) i used heap.old }
{
    let mut k = used;
    for j in i..to {
        k = push_token(code, heap, frame, base, k, j)?;
    }
    Some(k)
}
