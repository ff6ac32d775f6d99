// The numerals of a job, read again from its text: N, W and T.
ghost use Rattle.std.specs.Prelude.{◌≡◌};
ghost use Rattle.syntax.specs.Twins.PartEnds.{job_numerals};

use checker::places::{ahead, offset};
use job_checker::check_job::numeral;

#[derive(Clone, Copy)]
pub struct Numerals {
    pub steps: usize,
    pub walk: usize,
    pub table: usize,
}

// The non-equalities end at c.
pub fn job_numerals(text: &[u8], ats: &[u16], n: usize, c: usize) -> Numerals
    ensures { result ≡ job_numerals text.now ats.now n c }
{
    Numerals {
        steps: numeral(text, 7, offset(ats, n, ahead(n, 3, c)), 0),
        walk: numeral(text, 7, offset(ats, n, ahead(n, 7, c)), 0),
        table: numeral(text, 7, offset(ats, n, ahead(n, 11, c)), 0),
    }
}
