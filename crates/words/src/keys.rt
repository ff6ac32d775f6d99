// The keys of the fixed words and the tags of the kinds (language/specs/Tokens.antt: fixed_words, tag). Numbers and no enum: they stand in the cells of `marks`,
// and what these hold is promised to whoever lends them (`read_program` and `read_job` of `texts`).
pub const END: u16 = 0;

pub const OPEN: u16 = 1;

pub const CLOSE: u16 = 2;

pub const OPEN_LIST: u16 = 3;

pub const CLOSE_LIST: u16 = 4;

pub const DEFINE: u16 = 5;

pub const CALL: u16 = 6;

pub const IF: u16 = 7;

pub const CONS: u16 = 8;

pub const EQA: u16 = 9;

pub const IS_CONS: u16 = 10;

pub const JOB: u16 = 11;

pub const IN: u16 = 12;

pub const OUT: u16 = 13;

pub const NEQ: u16 = 14;

pub const STEPS: u16 = 15;

pub const WALK: u16 = 16;

pub const TABLE: u16 = 17;
// No fixed word.
pub const OTHER: u16 = 18;

pub const SYMBOL: u16 = 0;

pub const ENAME: u16 = 1;

pub const ANAME: u16 = 2;

pub const EVARIABLE: u16 = 3;

pub const AVARIABLE: u16 = 4;

pub const PLAIN: u16 = 5;
