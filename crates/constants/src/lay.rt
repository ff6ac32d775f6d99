// Every expression without names laid out in the heap, once, behind what is used; its tokens come in preorder, and so do its cells.
ghost use Rattle.std.specs.Prelude.{◌≡◌, ◌+◌, ◌-◌, ◌≤◌, length};
ghost use Rattle.std.proofs.lemmas.List.Edits.{sets};
ghost use Rattle.constants.specs.Twins.Laying.{named_in, cells_of, starts_at, fits_at, is_constant, laid, laid_one, constants_left, constants_laid};

use crate::table::enter;
use linking::code::{CELL, NAME, NOTHING, TOKENS, link_at};
use sets::tree::PAIR;

// What is used of the heap, and the token behind the latest constant: those before it are parts of one.
#[derive(Clone, Copy)]
pub struct Laid {
    pub used: usize,
    pub skip: usize,
}

// Whether a name stands among the tokens from i up to `to`.
fn is_named(code: &[u16; 24582], i: usize, to: usize) -> bool
    ensures { result ≡ named_in code.now (to - i) i }
{
    for j in i..to {
        let l = link_at(code, j);
        if l.mark == NAME {
            return true;
        }
    }
    false
}

// Whether an expression starts at i that is no name: a symbol, or the bracket of a `cons`.
fn starts_at(code: &[u16; 24582], i: usize) -> bool
    ensures { result ≡ starts_at code.now i }
{
    let l = link_at(code, i);
    if l.mark == CELL {
        return l.first != PAIR;
    }
    if l.mark == NOTHING {
        let m = link_at(code, i.min(4097) + 1);
        return m.mark == CELL && m.first == PAIR;
    }
    false
}

// Whether the tokens from i up to `past` have room, one cell each.
fn fits_at(s: Laid, i: usize, past: usize, limit: usize) -> bool
    ensures { result ≡ fits_at s i past limit }
{
    i < past && past - i <= limit && s.used.min(65535) <= limit - (past - i)
}

fn is_constant(code: &[u16; 24582], i: usize, s: Laid, limit: usize) -> bool
    ensures { result ≡ is_constant code.now i s limit }
{
    if i < s.skip || !starts_at(code, i) {
        return false;
    }
    let past = usize::from(link_at(code, i).past);
    fits_at(s, i, past, limit) && !is_named(code, i, past)
}

// The cells of the tokens from i up to `to`, at k: what is used then.
fn lay(code: &[u16; 24582], heap: &mut [u16; 65535], i: usize, to: usize, k: usize) -> usize
    requires { k + (to - i) ≤ 65535 }
    ensures { (result ≡ k + length (cells_of code.now (to - i) i)) × (heap.new ≡ sets heap.old k (cells_of code.now (to - i) i)) }
{
    let mut n = k;
    for j in i..to {
        let l = link_at(code, j);
        if l.mark == CELL {
            heap[n] = l.first;
            n += 1;
        }
    }
    n
}

// The token i.
fn lay_one(
    code: &mut [u16; 24582],
    heap: &mut [u16; 65535],
    i: usize,
    s: Laid,
    limit: usize,
) -> Laid
    requires { limit ≤ 65535 }
    ensures { laid result code.new heap.new ≡ laid_one i s limit code.old heap.old }
{
    if is_constant(code, i, s, limit) {
        let past = usize::from(link_at(code, i).past);
        let end = lay(code, heap, i, past, s.used);
        enter(code, i, s.used, end);
        return Laid {
            used: end,
            skip: past,
        };
    }
    enter(code, i, 0, 0);
    s
}

// Those of the program's first `count` tokens: what is used then, at most a cell a token more.
pub fn lay_constants(
    code: &mut [u16; 24582],
    heap: &mut [u16; 65535],
    used: usize,
    count: usize,
) -> usize
    ensures { constants_left result code.new heap.new ≡ constants_laid count used code.old heap.old }
{
    let end = count.min(TOKENS);
    let limit = (used.min(65535) + 4097).min(65535);
    let mut s = Laid { used, skip: 0 };
    for i in 0..end {
        s = lay_one(code, heap, i, s, limit);
    }
    s.used
}
