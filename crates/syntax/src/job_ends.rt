// Where the parts of a job stand, by its brackets: `(job (in d ..) (out d) (neq [d d] ..) ..`. For who reads the data again.
ghost use Rattle.std.specs.Prelude.{◌≡◌};
ghost use Rattle.checker.specs.Twins.StoredAt.{key_at};
ghost use Rattle.syntax.specs.Twins.PartEnds.{part_ends};

use crate::ends::past;
use checker::places::ahead;

// The inputs stand from the fifth token up to `ins`, the output from `from` up to `out`, the non-equalities from `sides` up to
// `neqs`: the three ends are those of closing brackets.
#[derive(Clone, Copy)]
pub struct JobEnds {
    pub ins: usize,
    pub from: usize,
    pub out: usize,
    pub sides: usize,
    pub neqs: usize,
}

pub fn job_ends(marks: &[u16], n: usize) -> JobEnds
    ensures { result ≡ part_ends (key_at marks.now n) n }
{
    let i = past(marks, n, 2);
    let o = past(marks, n, i);
    let q = past(marks, n, o);
    JobEnds {
        ins: i.saturating_sub(1),
        from: ahead(n, 2, i),
        out: o.saturating_sub(1),
        sides: ahead(n, 2, o),
        neqs: q.saturating_sub(1),
    }
}
