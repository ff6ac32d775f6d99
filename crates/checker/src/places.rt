// What a stored token holds, by its index, and the index some tokens on (specs/Twins/StoredAt.antt). `n` is the number of tokens.
ghost use Rattle.std.specs.Prelude.{◌≡◌};
ghost use Rattle.checker.specs.Twins.StoredAt.{key_at, tag_at, num_at, at_at};
ghost use Rattle.checker.specs.Twins.CheckAt.{ahead};

use cells::cell::cell;
use grammar::marks;
use words::keys::{OTHER, PLAIN};

// The tokens of a text, n of them: what the readers stored of each.
#[derive(Clone, Copy)]
pub struct Tokens<'a> {
    pub marks: &'a [u16],
    pub nums: &'a [u16],
    pub ats: &'a [u16],
    pub n: usize,
}

// The place among the fixed words.
pub fn key(marks: &[u16], n: usize, i: usize) -> u16
    ensures { result ≡ key_at marks.now n i }
{
    if i < n { marks::key(marks, i) } else { OTHER }
}

// The kind, by its tag.
pub fn kind(marks: &[u16], n: usize, i: usize) -> u16
    ensures { result ≡ tag_at marks.now n i }
{
    if i < n { marks::kind(marks, i) } else { PLAIN }
}

pub fn num(nums: &[u16], n: usize, i: usize) -> u16
    ensures { result ≡ num_at nums.now n i }
{
    if i < n { cell(nums, i) } else { 0 }
}

pub fn offset(ats: &[u16], n: usize, i: usize) -> usize
    ensures { result ≡ at_at ats.now n i }
{
    if i < n { marks::offset(ats, i) } else { 0 }
}

// `k` tokens on, and no further than the end.
pub fn ahead(n: usize, k: usize, i: usize) -> usize
    ensures { result ≡ ahead n k i }
{
    n.min(i.saturating_add(k))
}
