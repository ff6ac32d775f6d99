// The letters of a refusal (01, "Printing, and cases"), and the number of one that falls on neither text.

pub const PROGRAM: u8 = b'p';

pub const JOB: u8 = b'j';

pub const NEITHER: u8 = b'-';

// "20 lent storage shorter than its least length"
pub const SHORT: usize = 20;
