// The refusal of a text, and of two texts. The number stays a number: 01 counts the refusals, C is handed the count, and the definitions of
// `language`, which say which one comes first, count as well (`refuse` of language/specs/Reader.antt).
ghost use Rattle.std.specs.Prelude.{◌≡◌};
ghost use Rattle.refusals.specs.RefusalNumbers.{number_of, letter_of, offset_of};

use crate::letters::{JOB, NEITHER, PROGRAM, SHORT};

// 1 to 13, and the byte offset of what is at fault.
#[derive(Clone, Copy)]
pub struct Refusal {
    pub number: usize,
    pub offset: usize,
}

// "Order: the program first, then the job." Short: "20 lent storage shorter than its least length", which falls on neither.
#[derive(Clone, Copy)]
pub enum Refused {
    Program(Refusal),
    Job(Refusal),
    Short,
}

impl Refused {
    // 1 to 13 of a refused text, 20.
    pub fn number(self) -> usize
        ensures { result ≡ number_of self }
    {
        match self {
            Refused::Program(r) => r.number,
            Refused::Job(r) => r.number,
            Refused::Short => SHORT,
        }
    }

    // "(p program, j job, number, offset); one that falls on neither text prints `-` for the letter"
    pub fn letter(self) -> u8
        ensures { result ≡ letter_of self }
    {
        match self {
            Refused::Program(_) => PROGRAM,
            Refused::Job(_) => JOB,
            Refused::Short => NEITHER,
        }
    }

    // "and offset 0"
    pub fn offset(self) -> usize
        ensures { result ≡ offset_of self }
    {
        match self {
            Refused::Program(r) => r.offset,
            Refused::Job(r) => r.offset,
            Refused::Short => 0,
        }
    }
}
