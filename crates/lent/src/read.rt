// What reading a text answers, and whether the storage lent for it is long enough (specs/Storage.antt).
ghost use Rattle.std.specs.Prelude.{◌≡◌};
ghost use Rattle.lent.specs.Storage.{roomy};

use refusals::refusal::Refusal;

// Least lengths, in cells: of marks, nums and ats each, of the table of symbols, of the table of names.
pub const TOKENS: usize = 4097;

pub const SYMBOLS: usize = 2048;

pub const NAMES: usize = 8194;

// How many tokens are stored, and how many symbols the table has.
#[derive(Clone, Copy)]
pub struct Read {
    pub tokens: usize,
    pub symbols: u16,
}

// Short: 20, nothing touched.
#[derive(Clone, Copy)]
pub enum Unread {
    Refused(Refusal),
    Short,
}

pub fn long_enough(marks: &[u16], nums: &[u16], ats: &[u16], symbols: &[u16], names: &[u16]) -> bool
    ensures { result ≡ roomy marks.now nums.now ats.now symbols.now names.now }
{
    marks.len() >= TOKENS
        && nums.len() >= TOKENS
        && ats.len() >= TOKENS
        && symbols.len() >= SYMBOLS
        && names.len() >= NAMES
}
