// "20 lent storage shorter than its least length": whether the working storage and the answer storage that an entry is lent are too short.
ghost use Rattle.std.specs.Prelude.{◌≡◌};
ghost use Rattle.lent.specs.Storage.{short_for_lines, short_for_value};

// The least lengths, in cells: of the working storage, of the answer storage for a listing and for a run.
pub const WORK: usize = 8194;

pub const LINES: usize = 17408;

pub const VALUE: usize = 4096;

pub fn short_for_lines(work: &[u16], answer: &[u16]) -> bool
    ensures { result ≡ short_for_lines work.now answer.now }
{
    work.len() < WORK || answer.len() < LINES
}

pub fn short_for_value(work: &[u16], answer: &[u16]) -> bool
    ensures { result ≡ short_for_value work.now answer.now }
{
    work.len() < WORK || answer.len() < VALUE
}
