// The value of an expression (001, e/σ): a range of the heap.
ghost use Rattle.std.specs.Prelude.{◌≡◌, ◌-◌, ◌≤◌, ◌<◌};
ghost use Rattle.values.specs.Twins.Values.{made_at, head_end_at, known_pair, made_of, value_left, value_at};

use crate::tokens::{entry_at, place_at, push_tokens};
use cells::cell;
use constants::table::constant_at;
use linking::code::{NAME, link_at};

// The range of a value, what is used of the heap with it, and what is known of it (heap::entry).
#[derive(Clone, Copy)]
pub struct Valued {
    pub from: usize,
    pub to: usize,
    pub used: usize,
    pub known: u16,
}

// What is written from `used` on as a value: None, where the heap has no room for it.
fn made(used: usize, known: u16, w: Option<usize>) -> Option<Valued>
    ensures { result ≡ made_at used known w }
{
    w.map(|to| Valued {
        from: used,
        to,
        used: to,
        known,
    })
}

// The token behind the head of the `cons` at i: the head begins two tokens on.
fn head_end(code: &[u16; 24582], i: usize, past: usize) -> usize
    requires { (2 < past - i) × (past ≤ 65535) }
    ensures { (result ≡ head_end_at code.now i past) × (i ≤ result) × (result ≤ past) }
{
    let j = usize::from(link_at(code, i + 2).past);
    if j < i { i } else { j.min(past) }
}

// What is known of a pair whose own cell and head take the n cells from `used` up to k: how many cells its head has.
fn known_head(used: usize, k: usize) -> u16
    ensures { result ≡ known_pair (k - used) }
{
    let n = k.saturating_sub(used);
    if n < 32768 {
        return 2 * cell::narrow(n.saturating_sub(1));
    }
    0
}

// The cells of the `cons` at i, its head first, so that it is known how many cells that has.
fn make_pair(
    code: &[u16; 24582],
    heap: &mut [u16; 65535],
    frame: &[u16; 12360],
    base: usize,
    used: usize,
    i: usize,
    past: usize,
) -> Option<Valued>
    requires { (2 < past - i) × (past ≤ 65535) }
    ensures { value_left result heap.new ≡ made_of code.now frame.now base used i past heap.old }
{
    let j = head_end(code, i, past);
    let k = push_tokens(code, heap, frame, base, used, i, j)?;
    let w = push_tokens(code, heap, frame, base, k, j, past);
    made(used, known_head(used, k), w)
}

// The cells of the expression at i, whose tokens end before `past`, behind what is used.
fn make(
    code: &[u16; 24582],
    heap: &mut [u16; 65535],
    frame: &[u16; 12360],
    base: usize,
    used: usize,
    i: usize,
    past: usize,
) -> Option<Valued>
    requires { past ≤ 65535 }
    ensures { value_left result heap.new ≡ made_of code.now frame.now base used i past heap.old }
{
    if past.saturating_sub(i) <= 2 {
        let w = push_tokens(code, heap, frame, base, used, i, past);
        return made(used, 0, w);
    }
    make_pair(code, heap, frame, base, used, i, past)
}

// The value of the expression at i, the names' entries from `base` on; None where the heap has no room for it.
pub fn value(
    code: &[u16; 24582],
    heap: &mut [u16; 65535],
    frame: &[u16; 12360],
    base: usize,
    used: usize,
    i: usize,
) -> Option<Valued>
    ensures { value_left result heap.new ≡ value_at code.now frame.now base used i heap.old }
{
    let l = link_at(code, i);
    if l.mark == NAME {
        let e = entry_at(frame, place_at(base, l.first));
        return Some(Valued {
            from: e.from,
            to: e.to,
            used,
            known: e.known,
        });
    }
    let k = constant_at(code, i);
    if k.from < k.to {
        return Some(Valued {
            from: k.from,
            to: k.to,
            used,
            known: 0,
        });
    }
    make(code, heap, frame, base, used, i, usize::from(l.past))
}
