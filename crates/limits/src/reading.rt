// Both readers on the two texts of a case. The storages that they are lent are filled beforehand, and looked at afterwards.
use crate::storage::{FILLED, left_sound};
use lent::read::{NAMES, Read, SYMBOLS, TOKENS, Unread};
use texts::read_job::{Before, read_job};
use texts::read_program::read_program;

// What was said of the text that was read last, whether that is the job, and whether the storages are as they must be. `program` is how
// many tokens are stored of a program that was accepted.
#[derive(Clone, Copy)]
pub struct Said {
    pub program: usize,
    pub read: Result<Read, Unread>,
    pub job: bool,
    pub sound: bool,
}

// What the program's reader says, and leaves.
pub fn said_of_program(
    text: &[u8],
    marks: &mut [u16],
    nums: &mut [u16],
    ats: &mut [u16],
    symbols: &mut [u16],
    names: &mut [u16],
) -> Said {
    let read = read_program(text, marks, nums, ats, symbols, names);
    let sound = left_sound(&read, marks, nums, ats, symbols, names);
    Said {
        program: 0,
        read,
        job: false,
        sound,
    }
}

// What the job's reader says, and leaves.
pub fn said_of_job(
    runs: bool,
    before: Before<'_>,
    text: &[u8],
    marks: &mut [u16],
    nums: &mut [u16],
    ats: &mut [u16],
    symbols: &mut [u16],
    names: &mut [u16],
) -> Said {
    let read = read_job(runs, before, text, marks, nums, ats, symbols, names);
    let sound = left_sound(&read, marks, nums, ats, symbols, names);
    Said {
        program: before.tokens,
        read,
        job: true,
        sound,
    }
}

// The job behind its program, whose symbols stand in the table.
fn read_second(runs: bool, before: Before<'_>, text: &[u8], symbols: &mut [u16]) -> Said {
    let mut mark_space = [FILLED; TOKENS];
    let mut num_space = [FILLED; TOKENS];
    let mut at_space = [FILLED; TOKENS];
    let mut name_space = [FILLED; NAMES];
    let marks: &mut [u16] = &mut mark_space;
    let nums: &mut [u16] = &mut num_space;
    let ats: &mut [u16] = &mut at_space;
    let names: &mut [u16] = &mut name_space;
    said_of_job(runs, before, text, marks, nums, ats, symbols, names)
}

// Reads the program and, where it is accepted, the job.
pub fn read_case(program: &[u8], text: &[u8], runs: bool) -> Said {
    let mut mark_space = [FILLED; TOKENS];
    let mut num_space = [FILLED; TOKENS];
    let mut at_space = [FILLED; TOKENS];
    let mut symbol_space = [FILLED; SYMBOLS];
    let mut name_space = [FILLED; NAMES];
    let marks: &mut [u16] = &mut mark_space;
    let nums: &mut [u16] = &mut num_space;
    let ats: &mut [u16] = &mut at_space;
    let table: &mut [u16] = &mut symbol_space;
    let names: &mut [u16] = &mut name_space;
    let said = said_of_program(program, marks, nums, ats, table, names);
    if !said.sound {
        return said;
    }
    let Ok(Read { tokens, symbols }) = said.read else {
        return said;
    };
    let before = Before {
        text: program,
        marks,
        tokens,
        symbols,
    };
    read_second(runs, before, text, table)
}
