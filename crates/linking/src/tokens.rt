// What a stored token holds, by its index.
ghost use Rattle.std.specs.Prelude.{◌≡◌, ◌/◌, ◌%◌, ◌&&◌, eqb, get_or};
ghost use Rattle.linking.specs.Twins.Linking.{key_of, kind_of, same_name, on};

use cells::cell;

// The token's place among the fixed words.
pub fn key(marks: &[u16], i: usize) -> u16
    ensures { result ≡ key_of marks.now i }
{
    cell::cell(marks, i) % 32
}

// The token's kind, by its tag.
pub fn kind(marks: &[u16], i: usize) -> u16
    ensures { result ≡ kind_of marks.now i }
{
    cell::cell(marks, i) / 32 % 8
}

// "`e.x` and `a.x` are two variables."
#[tactic(auto, unfolding(crate::specs::Twins::Linking::same_name))]
pub(crate) fn same_name(marks: &[u16], nums: &[u16], i: usize, j: usize) -> bool
    ensures { result ≡ same_name marks.now nums.now i j }
{
    kind(marks, i) == kind(marks, j) && cell::cell(nums, i) == cell::cell(nums, j)
}

// k tokens on.
pub(crate) fn on(i: usize, k: usize) -> usize
    ensures { result ≡ on i k }
{
    i.min(4097) + k.min(4097)
}

// The index past what starts at i.
pub(crate) fn past(ends: &[u16], i: usize) -> usize
    ensures { result ≡ get_or ends.now i 0 }
{
    usize::from(cell::cell(ends, i))
}
