// What a word is: its key among the fixed words, its kind, how it fits, its hash (language/specs/Tokens.antt). A kind is its tag.
ghost use Rattle.std.specs.Prelude.{◌≡◌, cond, eqb};
ghost use Rattle.language.specs.Words.{same as word_same};
ghost use Rattle.language.specs.Tokens.{tag, kind_of, key_of, fit_of};
ghost use Rattle.words.specs.Twins.Marks.{fit_number, kind_at};
ghost use Rattle.words.specs.Twins.Judged.{text_of, hash_of};

use crate::fit::{name_fit, number_fit, numeral_fit, same};
use crate::keys::{
    ANAME, AVARIABLE, CALL, CLOSE, CLOSE_LIST, CONS, DEFINE, ENAME, END, EQA, EVARIABLE, IF, IN,
    IS_CONS, JOB, NEQ, OPEN, OPEN_LIST, OTHER, OUT, PLAIN, STEPS, SYMBOL, TABLE, WALK,
};
use cells::cell::byte;

// `'Z`, `e.NAME`, `a.NAME`, `?eK`, `?aK`, or any other word: the first byte decides, and of some the second.
pub fn kind_of(word: &[u8]) -> u16
    ensures { result ≡ tag (kind_of word.now) }
{
    let first = byte(word, 0);
    let second = byte(word, 1);
    match first {
        b'\'' => SYMBOL,
        b'e' => name_kind(second, ENAME),
        b'a' => name_kind(second, ANAME),
        b'?' => variable_kind(second),
        _ => PLAIN,
    }
}

// Of a word that begins as the names of this kind do.
fn name_kind(second: u8, kind: u16) -> u16
    ensures { result ≡ cond (eqb 46 second) kind 5 }
{
    match second {
        b'.' => kind,
        _ => PLAIN,
    }
}

// Of a word that begins as variables do.
fn variable_kind(second: u8) -> u16
    ensures { result ≡ cond (eqb 101 second) 3 (cond (eqb 97 second) 4 5) }
{
    match second {
        b'e' => EVARIABLE,
        b'a' => AVARIABLE,
        _ => PLAIN,
    }
}

// The key of the fixed word where the word is that one.
fn key_if(fixed: &[u8], key: u16, other: u16, word: &[u8]) -> u16
    ensures { result ≡ cond (word_same fixed.now word.now) key other }
{
    if same(fixed, word) { key } else { other }
}

// The place of a word among the fixed words; `OTHER` where it is none. It is compared with those alone that begin with its first byte.
pub fn key_of(word: &[u8]) -> u16
    ensures { result ≡ key_of word.now }
{
    if word.len() == 0 {
        return END;
    }
    match word[0] {
        b'(' => key_if(b"(", OPEN, OTHER, word),
        b')' => key_if(b")", CLOSE, OTHER, word),
        b'[' => key_if(b"[", OPEN_LIST, OTHER, word),
        b']' => key_if(b"]", CLOSE_LIST, OTHER, word),
        b'd' => key_if(b"define", DEFINE, OTHER, word),
        b'c' => key_if(
            b"call",
            CALL,
            key_if(b"cons", CONS, key_if(b"cons?", IS_CONS, OTHER, word), word),
            word,
        ),
        b'i' => key_if(b"if", IF, key_if(b"in", IN, OTHER, word), word),
        b'e' => key_if(b"eqa?", EQA, OTHER, word),
        b'j' => key_if(b"job", JOB, OTHER, word),
        b'o' => key_if(b"out", OUT, OTHER, word),
        b'n' => key_if(b"neq", NEQ, OTHER, word),
        b's' => key_if(b"steps", STEPS, OTHER, word),
        b'w' => key_if(b"walk", WALK, OTHER, word),
        b't' => key_if(b"table", TABLE, OTHER, word),
        _ => OTHER,
    }
}

// How a word of this kind fits, in a job or in a program.
pub fn fit_of(job: bool, kind: u16, word: &[u8]) -> u16
    ensures { result ≡ fit_number (fit_of (text_of job) (kind_at kind) word.now) }
{
    match kind {
        SYMBOL => name_fit(word, 1),
        ENAME | ANAME => name_fit(word, 2),
        EVARIABLE | AVARIABLE => number_fit(word, 2),
        _ if job => numeral_fit(word, 0),
        _ => name_fit(word, 0),
    }
}

// A number of 16 bits made of the word's bytes.
pub fn hash_of(word: &[u8]) -> u16
    ensures { result ≡ hash_of word.now }
{
    let mut h: u32 = 0;
    for i in 0..word.len() {
        h = (31 * h + u32::from(word[i])) % 65536;
    }
    h as u16
}
