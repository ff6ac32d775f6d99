// The names in reach: the first `used` of `names`, each by the index of a token that has it. No accepted program binds a name that is in reach, so
// that a name comes behind those there are, and its place is their number.
ghost use Rattle.std.specs.Prelude.{◌≡◌};
ghost use Rattle.linking.specs.Twins.Linking.{place_of, names_left, pushed_name};

use crate::tokens::same_name;
use links::link::with_one;

// The place of the name at i; the number of names in reach where it is none of them.
#[tactic(auto, using(crate::proofs::LinkTurns::all_left, crate::proofs::LinkTurns::place_turn, crate::proofs::LinkTurns::place_end))]
pub(crate) fn place_of(
    marks: &[u16],
    nums: &[u16],
    names: &[usize; 144],
    used: usize,
    i: usize,
) -> usize
    ensures { result ≡ place_of marks.now nums.now names.now used i }
{
    let n = used.min(144);
    for j in 0..n {
        if same_name(marks, nums, names[j], i) {
            return j;
        }
    }
    n
}

// The name at i comes into reach: how many are in reach then.
#[tactic(auto, unfolding(crate::specs::Twins::Linking::pushed_name))]
pub(crate) fn push_name(names: &mut [usize; 144], used: usize, i: usize) -> usize
    ensures { names_left result names.new ≡ pushed_name used i names.old }
{
    if used < 144 {
        names[used] = i;
        return with_one(used);
    }
    used
}
