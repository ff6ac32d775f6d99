// Bytes by kind (language/specs/Bytes.antt), and refusals 1 and 2.
ghost use Rattle.std.specs.Prelude.{◌≡◌, not};
ghost use Rattle.language.specs.Bytes.{byte_kind, is_blank, is_digit, in_name, in_word, is_outside};
ghost use Rattle.words.specs.Twins.Cutting.{byte_of, outside_at, bytes_at};

use crate::scan::scan;
use bounds::text::{job_bytes, program_bytes};
use refusals::refusal::Refusal;

#[derive(Clone, Copy)]
pub(crate) enum Byte {
    Blank,
    Bracket,
    Digit,
    Letter,
    Mark,
    Outside,
}

// "Bytes are ASCII 32 to 126, tab (9) and line feed (10)"; "brackets `(` `)` `[` `]`"; "blanks, tabs and line feeds part them".
pub(crate) fn byte_kind(b: u8) -> Byte
    ensures { byte_of result ≡ byte_kind b }
{
    match b {
        b' ' | 9..=10 => Byte::Blank,
        b'('..=b')' | b'[' | b']' => Byte::Bracket,
        b'0'..=b'9' => Byte::Digit,
        b'A'..=b'Z' | b'a'..=b'z' => Byte::Letter,
        33..=126 => Byte::Mark,
        _ => Byte::Outside,
    }
}

pub(crate) fn is_blank(b: u8) -> bool
    ensures { result ≡ is_blank (byte_kind b) }
{
    matches!(byte_kind(b), Byte::Blank)
}

pub(crate) fn is_digit(b: u8) -> bool
    ensures { result ≡ is_digit (byte_kind b) }
{
    matches!(byte_kind(b), Byte::Digit)
}

// "1 to 16 letters or digits"
pub(crate) fn in_name(b: u8) -> bool
    ensures { result ≡ in_name (byte_kind b) }
{
    matches!(byte_kind(b), Byte::Digit | Byte::Letter)
}

// A byte of a token that is no bracket.
pub(crate) fn in_word(b: u8) -> bool
    ensures { result ≡ in_word (byte_kind b) }
{
    !matches!(byte_kind(b), Byte::Blank | Byte::Bracket)
}

// A byte of the set.
fn in_set(b: u8) -> bool
    ensures { result ≡ not (is_outside (byte_kind b)) }
{
    !matches!(byte_kind(b), Byte::Outside)
}

// "2 a byte outside the set": the index of the first, or the text's length.
fn outside(text: &[u8]) -> usize
    ensures { result ≡ outside_at text.now }
{
    scan(text, 0, in_set)
}

// "Each: 1; 2": "1 program over 32,768 or job over 8,192 bytes (offset: the limit)". The text's length, or the refusal.
fn sound_bytes(limit: usize, text: &[u8]) -> Result<usize, Refusal>
    ensures { result ≡ bytes_at limit text.now }
{
    if limit < text.len() {
        return Err(Refusal {
            number: 1,
            offset: limit,
        });
    }
    let first = outside(text);
    if first < text.len() {
        return Err(Refusal {
            number: 2,
            offset: first,
        });
    }
    Ok(first)
}

// "1 program over 32,768 .. bytes (offset: the limit)"; 2.
pub fn sound_program(text: &[u8]) -> Result<usize, Refusal>
    ensures { result ≡ bytes_at 32768 text.now }
{
    sound_bytes(program_bytes(), text)
}

// "1 .. job over 8,192 bytes (offset: the limit)"; 2.
pub fn sound_job(text: &[u8]) -> Result<usize, Refusal>
    ensures { result ≡ bytes_at 8192 text.now }
{
    sound_bytes(job_bytes(), text)
}
