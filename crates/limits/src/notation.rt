// From the notation of a case (main.rt) to the bytes of a text.
ghost use Rattle.std.specs.Prelude.{◌≤◌, ◌<◌, length};

use crate::cases::find;
use cells::cell::byte;
use cells::part::part;
use itoa::Buffer;
use notations::repetition::behind;

// How far a notation is written out: the next place in it, and the bytes that are written.
#[derive(Clone, Copy)]
struct Written {
    next: usize,
    bytes: usize,
}

// The value of a hexadecimal digit, and 0 for any other byte.
fn digit(b: u8) -> u8
    ensures { result ≤ 15 }
{
    match b {
        b'0'..=b'9' => b - b'0',
        b'a'..=b'f' => b - b'a' + 10,
        _ => 0,
    }
}

// The value of the numeral at a place; of one over 99,999, that of its first five digits.
pub fn numeral(line: &[u8], from: usize) -> usize {
    let mut n: usize = 0;
    for i in from..line.len() {
        let b = line[i];
        if !b.is_ascii_digit() || 9999 < n {
            return n;
        }
        n = 10 * n + usize::from(digit(b));
    }
    n
}

// One byte more, where there is room.
fn put(out: &mut [u8], at: usize, b: u8) -> usize {
    if at < out.len() {
        out[at] = b;
        return at + 1;
    }
    at
}

fn put_all(out: &mut [u8], at: usize, bytes: &[u8]) -> usize {
    let mut k = at;
    for b in bytes {
        k = put(out, k, *b);
    }
    k
}

fn put_number(out: &mut [u8], at: usize, n: usize) -> usize {
    let mut digits = Buffer::new();
    put_all(out, at, digits.format(n).as_bytes())
}

// The byte that the letter behind a `\` stands for, where that is not `x`.
fn named(letter: u8) -> u8 {
    match letter {
        b'n' => b'\n',
        b'r' => b'\r',
        b't' => b'\t',
        _ => 0,
    }
}

// What stands behind a `\` at a place.
fn escaped(line: &[u8], w: Written, out: &mut [u8]) -> Written
    requires { w.next < length line.now }
    ensures { w.next < result.next }
{
    let at = w.next;
    let letter = byte(line, at + 1);
    if letter == b'x' {
        let b = 16 * digit(byte(line, at + 2)) + digit(byte(line, at + 3));
        return Written {
            next: at + 4,
            bytes: put(out, w.bytes, b),
        };
    }
    Written {
        next: at + 2,
        bytes: put(out, w.bytes, named(letter)),
    }
}

// One byte of a notation without repetitions; `time` is the number of the time, or 0 outside a repetition.
fn write_byte(line: &[u8], w: Written, time: usize, out: &mut [u8]) -> Written
    requires { w.next < length line.now }
    ensures { w.next < result.next }
{
    let at = w.next;
    let b = line[at];
    if b == b'\\' {
        return escaped(line, w, out);
    }
    if b == b'#' && 0 < time {
        return Written {
            next: at + 1,
            bytes: put_number(out, w.bytes, time),
        };
    }
    Written {
        next: at + 1,
        bytes: put(out, w.bytes, b),
    }
}

// What is repeated, once.
fn write_once(body: &[u8], time: usize, out: &mut [u8], at: usize) -> usize {
    let mut w = Written { next: 0, bytes: at };
    while w.next < body.len() {
        w = write_byte(body, w, time, out);
    }
    w.bytes
}

fn write_times(body: &[u8], times: usize, out: &mut [u8], at: usize) -> usize {
    let mut k = at;
    for time in 1..=times {
        k = write_once(body, time, out, k);
    }
    k
}

// The repetition whose `<` stands at a place.
fn repeated(line: &[u8], w: Written, out: &mut [u8]) -> Written
    requires { w.next < length line.now }
    ensures { w.next < result.next }
{
    let at = w.next;
    let times = numeral(line, at + 1);
    let end = find(line, at, b'>');
    let star = find(line, at, b'*');
    let body = part(line, star + 1, end);
    Written {
        next: behind(line, end),
        bytes: write_times(body, times, out, w.bytes),
    }
}

// One byte or one repetition.
fn write_next(line: &[u8], w: Written, out: &mut [u8]) -> Written
    requires { w.next < length line.now }
    ensures { w.next < result.next }
{
    let at = w.next;
    if line[at] == b'<' {
        return repeated(line, w, out);
    }
    write_byte(line, w, 0, out)
}

// Writes a text out, and answers its length.
pub fn expand(line: &[u8], out: &mut [u8]) -> usize {
    let mut w = Written { next: 0, bytes: 0 };
    while w.next < line.len() {
        w = write_next(line, w, out);
    }
    w.bytes
}
