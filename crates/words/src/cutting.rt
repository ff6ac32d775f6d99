// A text cut into words, by index (specs/Twins/Cutting.antt).
ghost use Rattle.std.specs.Prelude.{◌≡◌};
ghost use Rattle.words.specs.Twins.Cutting.{start_at, end_at, name_end, digits_end, piece_end};

use crate::bytes::{in_name, in_word, is_blank, is_digit};
use crate::scan::scan;

// The first byte from `from` on that is no blank, or the end.
pub fn word_start(text: &[u8], from: usize) -> usize
    ensures { result ≡ start_at text.now from }
{
    scan(text, from, is_blank)
}

// The first byte from `from` on that is of no word, or the end.
fn word_end(text: &[u8], from: usize) -> usize
    ensures { result ≡ end_at text.now from }
{
    scan(text, from, in_word)
}

// The first byte from `from` on that is of no name, or the end.
pub(crate) fn name_end(text: &[u8], from: usize) -> usize
    ensures { result ≡ name_end text.now from }
{
    scan(text, from, in_name)
}

// The first byte from `from` on that is no digit, or the end.
pub(crate) fn digits_end(text: &[u8], from: usize) -> usize
    ensures { result ≡ digits_end text.now from }
{
    scan(text, from, is_digit)
}

// Behind the word or bracket that begins at `i`.
pub fn piece_end(text: &[u8], i: usize) -> usize
    ensures { result ≡ piece_end text.now i }
{
    if text.len() <= i {
        return i;
    }
    if in_word(text[i]) {
        return word_end(text, i);
    }
    i + 1
}
