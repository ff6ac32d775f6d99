// What a reader sees of a stored token: its key, its kind, how it fits, whether it is one too many, its offset (specs/Twins/Stored.antt).
ghost use Rattle.std.specs.Prelude.{◌≡◌, ◌%◌};
ghost use Rattle.words.specs.Twins.Marks.{kind_tag, fit_at, over_mark, fit_tag};
ghost use Rattle.grammar.specs.Twins.Stored.{mark_at, offset_at};
ghost use Rattle.grammar.specs.Twins.Positions.{judged_at};

use cells::cell::cell;
use refusals::refusal::Refusal;

// The mark past the end of the storage: no fixed word, a plain word that is broken, and one too many. No reader passes it.
const NOTHING: u16 = 1458;

fn mark(marks: &[u16], i: usize) -> u16
    ensures { result ≡ mark_at marks.now i }
{
    if marks.len() <= i {
        return NOTHING;
    }
    marks[i]
}

// The token's place among the fixed words.
pub fn key(marks: &[u16], i: usize) -> u16
    ensures { result ≡ mark_at marks.now i % 32 }
{
    mark(marks, i) % 32
}

// The token's kind, by its tag.
pub fn kind(marks: &[u16], i: usize) -> u16
    ensures { result ≡ kind_tag (mark_at marks.now i) }
{
    let tag = mark(marks, i) / 32 % 8;
    if tag < 5 { tag } else { 5 }
}

// How the token fits as a word of its kind.
pub fn fit(marks: &[u16], i: usize) -> u16
    ensures { result ≡ fit_tag (mark_at marks.now i) }
{
    mark(marks, i) / 256 % 4
}

pub fn offset(ats: &[u16], i: usize) -> usize
    ensures { result ≡ offset_at ats.now i }
{
    cell(ats, i) as usize
}

// "3, 4, 5 at the earliest token": a token that fits so in its place is passed, or refused.
pub fn judged(marks: &[u16], ats: &[u16], fit: u16, i: usize) -> Result<usize, Refusal>
    ensures { result ≡ judged_at (fit_at fit) (over_mark (mark_at marks.now i)) (offset_at ats.now i) i }
{
    let offset = offset(ats, i);
    if fit == 1 {
        return Err(Refusal { number: 3, offset });
    }
    if fit == 2 {
        return Err(Refusal { number: 4, offset });
    }
    if 3 <= fit {
        return Err(Refusal { number: 5, offset });
    }
    if 1024 <= mark(marks, i) {
        return Err(Refusal { number: 5, offset });
    }
    Ok(i + 1)
}
