// What `list` answers told by its number and values, and back from them.
ghost use Rattle.std.specs.Prelude.{◌≡◌, [], ◌∷◌, ◌++◌};
ghost use Rattle.answers.specs.ListNumbers.{number_of, said_of, word_from, listed_from, answer_from};
ghost use Rattle.telling.specs.Numbers.{said_after};

use crate::numbers::{number_at, write_numbers};
use crate::refused::unless_refused;
use answers::list::{Answer, Listed, Word, cut_of, lines_of, number_of, transitions_of, unstopped};
use refusals::answer::{letter_of, offset_of};

// Letter, offset, cut, lines, transitions and the number of bytes that were printed.
fn said_printed(a: Answer, bytes: usize) -> [usize; 6]
    ensures { result ≡ said_of a ++ (bytes ∷ []) }
{
    let letter = letter_of(a);
    let offset = offset_of(a);
    let cut = cut_of(a);
    let lines = lines_of(a);
    let count = transitions_of(a);
    [letter, offset, cut, lines, count, bytes]
}

// The number of the answer, and in `said` its letter, offset, cut, lines and transitions.
pub fn tell(a: Answer, said: &mut [usize]) -> usize
    ensures { (result ≡ number_of a) × (said.new ≡ said_after (number_of a) (said_of a) said.old) }
{
    let number = number_of(a);
    let numbers = said_printed(a, 0);
    write_numbers(number, &numbers[..5], said);
    number
}

// The same, with the number of bytes that were printed as the sixth.
pub fn tell_printed(a: Answer, bytes: usize, said: &mut [usize]) -> usize
    ensures { (result ≡ number_of a) × (said.new ≡ said_after (number_of a) (said_of a ++ (bytes ∷ [])) said.old) }
{
    let number = number_of(a);
    write_numbers(number, &said_printed(a, bytes), said);
    number
}

fn word_from(number: usize, cut: usize) -> Word
    ensures { result ≡ word_from number cut }
{
    match number {
        21 => Word::Stop21,
        22 => Word::Stop22,
        23 => Word::Stop23,
        _ => unstopped(cut == 1),
    }
}

fn listed_from(number: usize, said: &[usize]) -> Listed
    ensures { result ≡ listed_from number said.now }
{
    Listed {
        word: word_from(number, number_at(said, 2)),
        lines: number_at(said, 3),
        count: number_at(said, 4),
    }
}

// The answer that was told by this number and these numbers; 20 has none.
pub fn answer_from(number: usize, said: &[usize]) -> Answer
    ensures { result ≡ answer_from number said.now }
{
    unless_refused(number, said)?;
    Ok(listed_from(number, said))
}
