// The smallest readers: one token, or one e or d, read from the token at `i` on (specs/Twins/Positions.antt). The answer is the index past what was
// read, or the refusal.
ghost use Rattle.std.specs.Prelude.{◌≡◌};
ghost use Rattle.grammar.specs.Twins.Stored.{wrong_at, the_in_at, one_of_at, leaf_at, tree_at};

use crate::marks::{fit, judged, key, kind, offset};
use refusals::refusal::Refusal;
use words::keys::{CLOSE, CONS, OPEN, SYMBOL};

// 3 here.
pub(crate) fn wrong(ats: &[u16], i: usize) -> Result<usize, Refusal>
    ensures { result ≡ wrong_at ats.now i }
{
    Err(Refusal {
        number: 3,
        offset: offset(ats, i),
    })
}

// The fixed word with this key if there is room for one more, else 5 here; 3 for any other token.
pub(crate) fn the_in(
    marks: &[u16],
    ats: &[u16],
    room: usize,
    word: u16,
    i: usize,
) -> Result<usize, Refusal>
    ensures { result ≡ the_in_at marks.now ats.now room word i }
{
    if key(marks, i) == word {
        if room == 0 {
            return judged(marks, ats, 3, i);
        }
        return judged(marks, ats, 0, i);
    }
    judged(marks, ats, 1, i)
}

// The fixed word with this key, else 3 here.
pub(crate) fn the(marks: &[u16], ats: &[u16], word: u16, i: usize) -> Result<usize, Refusal>
    ensures { result ≡ the_in_at marks.now ats.now 1 word i }
{
    the_in(marks, ats, 1, word, i)
}

// A word of this kind if there is room for one more, else 5 here; 3 or 4 for one that does not fit.
pub(crate) fn one_of(
    marks: &[u16],
    ats: &[u16],
    room: usize,
    tag: u16,
    i: usize,
) -> Result<usize, Refusal>
    ensures { result ≡ one_of_at marks.now ats.now room tag i }
{
    if kind(marks, i) == tag {
        let how = fit(marks, i);
        if how == 0 {
            if room == 0 {
                return judged(marks, ats, 3, i);
            }
            return judged(marks, ats, 0, i);
        }
        return judged(marks, ats, how, i);
    }
    judged(marks, ats, 1, i)
}

// A word of this kind.
pub(crate) fn word(marks: &[u16], ats: &[u16], tag: u16, i: usize) -> Result<usize, Refusal>
    ensures { result ≡ one_of_at marks.now ats.now 1 tag i }
{
    one_of(marks, ats, 1, tag, i)
}

// An e or a d of one token: `'Z` or a word of one of the two kinds of variables.
pub(crate) fn leaf(
    marks: &[u16],
    ats: &[u16],
    evar: u16,
    avar: u16,
    i: usize,
) -> Result<usize, Refusal>
    ensures { result ≡ leaf_at marks.now ats.now evar avar i }
{
    let tag = kind(marks, i);
    if tag == SYMBOL {
        return word(marks, ats, SYMBOL, i);
    }
    if tag == evar {
        return word(marks, ats, evar, i);
    }
    if tag == avar {
        return word(marks, ats, avar, i);
    }
    wrong(ats, i)
}

// "e: `(cons e e)`, xe or ea", "d: `(cons d d)`, `'Z`, `?eK` or `?aK`": variables are of the two kinds; `room` more brackets may be opened.
#[tactic(auto, using(crate::proofs::StoredReaders::tree_leaf, crate::proofs::StoredReaders::tree_shut, crate::proofs::StoredReaders::tree_more))]
pub(crate) fn tree(
    marks: &[u16],
    ats: &[u16],
    evar: u16,
    avar: u16,
    room: usize,
    i: usize,
) -> Result<usize, Refusal>
    ensures { result ≡ tree_at marks.now ats.now evar avar room i }
{
    if key(marks, i) == OPEN {
        if room == 0 {
            let shut = the_in(marks, ats, 0, OPEN, i)?;
            return wrong(ats, shut);
        }
        let opened = the(marks, ats, OPEN, i)?;
        let inside = the(marks, ats, CONS, opened)?;
        let head = tree(marks, ats, evar, avar, room - 1, inside)?;
        let tail = tree(marks, ats, evar, avar, room - 1, head)?;
        return the(marks, ats, CLOSE, tail);
    }
    leaf(marks, ats, evar, avar, i)
}
