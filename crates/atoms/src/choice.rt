// The branches of an `eqa?`: "A branch that contradicts is no transition."
ghost use Rattle.std.specs.Prelude.{◌≡◌};
ghost use Rattle.atoms.specs.Twins.Choices.{branches_by, branches_of};

use heap::configuration::Branches;
use restrictions::restriction::{Kind, kind_of};

// Two sides that are the same have the true branch alone; two that differ already, as different symbols or by a non-equality, the false one.
fn branches_by(k: Kind) -> Branches
    ensures { result ≡ branches_by k }
{
    match k {
        Kind::Contradiction => Branches {
            yes: true,
            no: false,
        },
        Kind::Redundant => Branches {
            yes: false,
            no: true,
        },
        Kind::Kept => Branches {
            yes: true,
            no: true,
        },
    }
}

// What the non-equality of the two sides would be beside the first `neqs` ones decides: nothing is bound to see it.
pub fn same_branches(q: &[u16; 4096], neqs: usize, left: u16, right: u16) -> Branches
    ensures { result ≡ branches_of neqs left right q.now }
{
    let k = kind_of(q, neqs, left, right);
    branches_by(k)
}
