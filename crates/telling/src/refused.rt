// The refusal that an answer's numbers say.
ghost use Rattle.std.specs.Prelude.{◌≡◌};
ghost use Rattle.refusals.specs.AnswerNumbers.{unless_refused};

use crate::numbers::number_at;
use refusals::letters::{JOB, PROGRAM, SHORT};
use refusals::refusal::{Refusal, Refused};

// By the number and the first two values; 20 has none.
pub(crate) fn unless_refused(number: usize, said: &[usize]) -> Result<(), Refused>
    ensures { result ≡ unless_refused number said.now tt }
{
    if number == SHORT {
        return Err(Refused::Short);
    }
    let letter = number_at(said, 0);
    let offset = number_at(said, 1);
    if letter == usize::from(PROGRAM) {
        return Err(Refused::Program(Refusal { number, offset }));
    }
    if letter == usize::from(JOB) {
        return Err(Refused::Job(Refusal { number, offset }));
    }
    Ok(())
}
