// What `run` answers told by its number and values, and back from them.
ghost use Rattle.std.specs.Prelude.{◌≡◌};
ghost use Rattle.run_answers.specs.RunNumbers.{number_of, said_of, ran_from, answer_from};
ghost use Rattle.telling.specs.Numbers.{said_after};

use crate::numbers::{number_at, write_numbers};
use crate::refused::unless_refused;
use refusals::answer::{letter_of, offset_of};
use run_answers::run::{Answer, Ran, length_of, number_of, steps_of};

// The number of the answer, and in `said` its letter, offset, steps and length.
pub fn tell(a: Answer, said: &mut [usize]) -> usize
    ensures { (result ≡ number_of a) × (said.new ≡ said_after (number_of a) (said_of a) said.old) }
{
    let number = number_of(a);
    let numbers: [usize; 4] = [letter_of(a), offset_of(a), steps_of(a), length_of(a)];
    write_numbers(number, &numbers, said);
    number
}

// A value has a cell at least.
fn ran_from(number: usize, said: &[usize]) -> Ran
    ensures { result ≡ ran_from number said.now }
{
    if number == 21 {
        return Ran::Over;
    }
    let steps = number_at(said, 2);
    let length = number_at(said, 3);
    if length == 0 {
        return Ran::NotWithin;
    }
    Ran::Value { steps, length }
}

// The answer that was told by this number and these numbers; 20 has none.
pub fn answer_from(number: usize, said: &[usize]) -> Answer
    ensures { result ≡ answer_from number said.now }
{
    unless_refused(number, said)?;
    Ok(ran_from(number, said))
}
