// What the text of a listing's answer begins with (01, "Printing, and cases"): the first line of a listing, or the refusal that is all of it.
ghost use Rattle.std.specs.Prelude.{◌≡◌};
ghost use Rattle.answers.specs.Headings.{refusal_as, heading_of};

use crate::list::{Answer, Listed};
use refusals::refusal::Refused;

// "Refusal: `refused p 3 17` (p program, j job, number, offset); one that falls on neither text prints `-` for the letter and offset 0"
#[derive(Clone, Copy)]
pub struct RefusalLine {
    pub letter: u8,
    pub number: usize,
    pub offset: usize,
}

// "First line: `whole`, `cut` or `stop21` to `stop23`, the lines, the transitions."
pub type Heading = Result<Listed, RefusalLine>;

fn refusal_line(refused: Refused) -> RefusalLine
    ensures { result ≡ refusal_as refused }
{
    RefusalLine {
        letter: refused.letter(),
        number: refused.number(),
        offset: refused.offset(),
    }
}

pub fn heading_of(a: Answer) -> Heading
    ensures { result ≡ heading_of a }
{
    a.map_err(refusal_line)
}
