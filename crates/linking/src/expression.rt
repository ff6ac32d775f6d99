// Expressions: each token by itself, since all of an expression has the same names in reach.
ghost use Rattle.std.specs.Prelude.{◌≡◌, ◌-◌};
ghost use Rattle.linking.specs.Twins.Code.{link};
ghost use Rattle.linking.specs.Twins.Linking.{token_link, range_linked};

use crate::code::{CELL, Link, NAME, NOTHING, set_link};
use crate::names::place_of;
use crate::source::Source;
use crate::tokens::{key, kind};
use cells::cell;
use links::link::is_pair;
use sets::{contraction, tree};
use words::keys::{ANAME, ENAME, SYMBOL};

fn link_of(mark: u16, first: u16, past: u16) -> Link
    ensures { result ≡ link mark first 0 past }
{
    Link {
        mark,
        first,
        second: 0,
        past,
    }
}

// A symbol or `cons` is a cell, a name its place; brackets are nothing.
#[tactic(auto, unfolding(crate::specs::Twins::Linking::token_link))]
fn token_link(p: Source<'_>, names: &[usize; 144], used: usize, i: usize) -> Link
    ensures { result ≡ token_link p.entry.marks.now p.entry.nums.now p.entry.ends.now names.now used i }
{
    let past = cell::cell(p.ends, i);
    if is_pair(key(p.marks, i)) {
        return link_of(CELL, tree::PAIR, past);
    }
    let tag = kind(p.marks, i);
    if tag == SYMBOL {
        return link_of(CELL, contraction::code(cell::cell(p.nums, i), 1), past);
    }
    if tag == ENAME {
        return link_of(
            NAME,
            cell::low(place_of(p.marks, p.nums, names, used, i)),
            past,
        );
    }
    if tag == ANAME {
        return link_of(
            NAME,
            cell::low(place_of(p.marks, p.nums, names, used, i)),
            past,
        );
    }
    link_of(NOTHING, 0, past)
}

// The tokens from `from` up to `to`.
#[tactic(auto, using(crate::proofs::LinkTurns::range_turn, crate::proofs::LinkTurns::range_end))]
pub(crate) fn link_range(
    p: Source<'_>,
    names: &[usize; 144],
    used: usize,
    code: &mut [u16; 24582],
    from: usize,
    to: usize,
)
    ensures { code.new ≡ range_linked p.entry.marks.now p.entry.nums.now p.entry.ends.now names.now used (to - from) from code.old }
{
    for i in from..to {
        let l = token_link(p, names, used, i);
        set_link(code, i, l);
    }
}
