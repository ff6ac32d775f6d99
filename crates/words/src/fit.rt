// A word judged: how it fits as a name or a numeral, and its value (language/specs/Words.antt). A fit is its number (specs/Twins/Marks.antt).
ghost use Rattle.std.specs.Prelude.{◌≡◌, ◌-◌, ◌%◌, length, drop};
ghost use Rattle.language.specs.Words.{same as word_same, begins as beginsWord, name_fit, is_numeral, numeral_fit, number_fit};
ghost use Rattle.words.specs.Twins.Marks.{fit_number};
ghost use Rattle.words.specs.Twins.Judged.{value_cell};

use crate::cutting::{digits_end, name_end};
use bounds::word::{is_name_length, is_number, is_number_length, is_numeral_length};

// `start` is a beginning of `word`.
#[tactic(auto, using(crate::proofs::WordLaws::begins_on, crate::proofs::WordLaws::begins_not, crate::proofs::WordLaws::begins_short, crate::proofs::WordLaws::begins_end))]
pub fn begins(start: &[u8], word: &[u8]) -> bool
    ensures { result ≡ beginsWord start.now word.now }
{
    for i in 0..start.len() {
        if word.len() <= i || start[i] != word[i] {
            return false;
        }
    }
    true
}

// The same bytes.
#[tactic(auto, using(crate::proofs::WordLaws::same_long, crate::proofs::WordLaws::same_unlike))]
pub fn same(a: &[u8], b: &[u8]) -> bool
    ensures { result ≡ word_same a.now b.now }
{
    a.len() == b.len() && begins(a, b)
}

// "F, NAME and Z have 1 to 16 letters or digits"; "4 a name over 16": the name stands from `from` on.
#[tactic(auto, using(crate::proofs::WordLaws::name_none, crate::proofs::WordLaws::name_broken, crate::proofs::WordLaws::name_whole))]
pub(crate) fn name_fit(word: &[u8], from: usize) -> u16
    ensures { result ≡ fit_number (name_fit (drop from word.now)) }
{
    if word.len() <= from {
        return 1;
    }
    if name_end(word, from) < word.len() {
        return 1;
    }
    if is_name_length(word.len() - from) {
        return 0;
    }
    2
}

// "Numerals are base ten, no leading noughts": from `from` on.
#[tactic(auto, using(crate::proofs::WordLaws::numeral_none, crate::proofs::WordLaws::numeral_broken, crate::proofs::WordLaws::numeral_one, crate::proofs::WordLaws::numeral_last))]
fn is_numeral(word: &[u8], from: usize) -> bool
    ensures { result ≡ is_numeral (drop from word.now) }
{
    if word.len() <= from {
        return false;
    }
    if digits_end(word, from) < word.len() {
        return false;
    }
    word.len() - from == 1 || word[from] != 48
}

// "at most 7 digits"; "4 a numeral over 7 digits"
pub(crate) fn numeral_fit(word: &[u8], from: usize) -> u16
    ensures { result ≡ fit_number (numeral_fit (drop from word.now)) }
{
    if !is_numeral(word, from) {
        return 1;
    }
    if is_numeral_length(word.len().saturating_sub(from)) {
        0
    } else {
        2
    }
}

fn digit(b: u8) -> u32
    ensures { result ≡ b - 48 }
{
    u32::from(b.saturating_sub(48))
}

// The value of the numeral from `from` on, modulo 65,536.
#[tactic(auto, using(crate::proofs::WordLaws::value_on, crate::proofs::WordLaws::value_end))]
pub fn value(word: &[u8], from: usize) -> u16
    ensures { result ≡ value_cell (drop from word.now) }
{
    let mut v: u32 = 0;
    for i in from..word.len() {
        v = (10 * v + digit(word[i])) % 65536;
    }
    v as u16
}

// "K is 1 to 999"; "4 K outside 1 to 999"
#[tactic(auto, using(crate::proofs::WordLaws::number_short, crate::proofs::WordLaws::number_long, crate::proofs::WordLaws::number_unfit))]
pub(crate) fn number_fit(word: &[u8], from: usize) -> u16
    ensures { result ≡ fit_number (number_fit (drop from word.now)) }
{
    if !is_numeral(word, from) {
        return 1;
    }
    if is_number_length(word.len().saturating_sub(from)) && is_number(value(word, from)) {
        0
    } else {
        2
    }
}
