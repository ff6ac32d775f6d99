// Both readers on storages of which one is a cell too short: "20 lent storage shorter than its least length: before all else".
use crate::reading::{Said, said_of_job, said_of_program};
use crate::storage::FILLED;
use lent::read::{NAMES, SYMBOLS, TOKENS};
use texts::read_job::Before;

const FEW_TOKENS: usize = TOKENS - 1;

const FEW_SYMBOLS: usize = SYMBOLS - 1;

const FEW_NAMES: usize = NAMES - 1;

// The program's reader, where storage k is too short: marks, nums, ats, symbols, names from 1 on.
pub fn short_program(text: &[u8], k: usize) -> Said {
    let mut m = [FILLED; TOKENS];
    let mut n = [FILLED; TOKENS];
    let mut a = [FILLED; TOKENS];
    let mut s = [FILLED; SYMBOLS];
    let mut w = [FILLED; NAMES];
    let mut few = [FILLED; FEW_TOKENS];
    let mut few_symbols = [FILLED; FEW_SYMBOLS];
    let mut few_names = [FILLED; FEW_NAMES];
    match k {
        1 => said_of_program(text, &mut few, &mut n, &mut a, &mut s, &mut w),
        2 => said_of_program(text, &mut m, &mut few, &mut a, &mut s, &mut w),
        3 => said_of_program(text, &mut m, &mut n, &mut few, &mut s, &mut w),
        4 => said_of_program(text, &mut m, &mut n, &mut a, &mut few_symbols, &mut w),
        _ => said_of_program(text, &mut m, &mut n, &mut a, &mut s, &mut few_names),
    }
}

// The job's reader on these storages. Nothing is read, so that it needs nothing of the program.
fn unread_job(
    runs: bool,
    text: &[u8],
    marks: &mut [u16],
    nums: &mut [u16],
    ats: &mut [u16],
    symbols: &mut [u16],
    names: &mut [u16],
) -> Said {
    let before = Before {
        text: b"",
        marks: &[],
        tokens: 0,
        symbols: 0,
    };
    said_of_job(runs, before, text, marks, nums, ats, symbols, names)
}

// The job's reader, where storage k is too short.
pub fn short_job(runs: bool, text: &[u8], k: usize) -> Said {
    let mut m = [FILLED; TOKENS];
    let mut n = [FILLED; TOKENS];
    let mut a = [FILLED; TOKENS];
    let mut s = [FILLED; SYMBOLS];
    let mut w = [FILLED; NAMES];
    let mut few = [FILLED; FEW_TOKENS];
    let mut few_symbols = [FILLED; FEW_SYMBOLS];
    let mut few_names = [FILLED; FEW_NAMES];
    match k {
        1 => unread_job(runs, text, &mut few, &mut n, &mut a, &mut s, &mut w),
        2 => unread_job(runs, text, &mut m, &mut few, &mut a, &mut s, &mut w),
        3 => unread_job(runs, text, &mut m, &mut n, &mut few, &mut s, &mut w),
        4 => unread_job(runs, text, &mut m, &mut n, &mut a, &mut few_symbols, &mut w),
        _ => unread_job(runs, text, &mut m, &mut n, &mut a, &mut s, &mut few_names),
    }
}
