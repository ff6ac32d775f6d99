// Where the definitions of an accepted program stand.
ghost use Rattle.std.specs.Prelude.{◌≡◌, ◌-◌};
ghost use Rattle.checker.specs.Twins.CheckAt.{no_defs};
ghost use Rattle.checker.specs.Twins.CheckStored.{defs_at};
ghost use Rattle.syntax.specs.Twins.Heads.{heads_from};

use cells::cell::{low, put};
use checker::check::index;
use programs::check_program::definitions;

// The first `count` indices, as cells.
#[tactic(auto, using(crate::proofs::PartOpenings::heads_none, crate::proofs::PartOpenings::heads_more))]
fn store(from: &[usize], count: usize, heads: &mut [u16])
    ensures { heads.new ≡ heads_from from.now count 0 heads.old }
{
    for j in 0..count {
        put(heads, j, low(index(from, j)));
    }
}

// Stores for each definition of the n tokens, in order, the index of its name, and answers how many they are: "a program 64 definitions".
// The parameters start two tokens behind the name, the body behind the bracket that closes them (specs/Twins/Placed.antt: DefIn).
pub fn store_heads(marks: &[u16], nums: &[u16], ats: &[u16], n: usize, heads: &mut [u16]) -> usize
    ensures { let ds = defs_at marks.now nums.now ats.now n 64 no_defs in (result ≡ ds.count) × (heads.new ≡ heads_from ds.heads ds.count 0 heads.old) }
{
    let ds = definitions(marks, nums, ats, n);
    let count = ds.count;
    store(&ds.heads, count, heads);
    count
}
