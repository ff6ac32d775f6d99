// The letter and offset of an answer, which is refused or not.
ghost use Rattle.std.specs.Prelude.{◌≡◌};
ghost use Rattle.refusals.specs.AnswerNumbers.{letter_of, offset_of};

use crate::refusal::Refused;

// Where nothing is refused 0.
pub fn letter_of<T: Copy>(a: Result<T, Refused>) -> usize
    ensures { result ≡ letter_of a }
{
    match a {
        Ok(_) => 0,
        Err(r) => usize::from(r.letter()),
    }
}

pub fn offset_of<T: Copy>(a: Result<T, Refused>) -> usize
    ensures { result ≡ offset_of a }
{
    match a {
        Ok(_) => 0,
        Err(r) => r.offset(),
    }
}
