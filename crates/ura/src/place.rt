// Where a byte of a text stands, and what is shown of its line.
use std::ops::Range;

// How much of a long line is shown, and how much of that stands before the place.
const SHOWN: usize = 100;

const BEFORE: usize = 60;

// Its line and its column, both from 1 on, and the index of the line's first byte.
#[derive(Clone, Copy)]
pub struct Place {
    pub line: usize,
    pub column: usize,
    pub start: usize,
}

pub fn place_of(text: &[u8], offset: usize) -> Place {
    let before = &text[..offset.min(text.len())];
    let feeds = before.iter().filter(|b| **b == b'\n').count();
    let start = match before.iter().rposition(|b| *b == b'\n') {
        Some(feed) => feed + 1,
        None => 0,
    };
    Place {
        line: feeds.saturating_add(1),
        column: before.len().saturating_sub(start).saturating_add(1),
        start,
    }
}

// The line that begins at `start`, without its line feed.
pub fn line_from(text: &[u8], start: usize) -> &[u8] {
    let rest = &text[start.min(text.len())..];
    match rest.iter().position(|b| *b == b'\n') {
        Some(feed) => &rest[..feed],
        None => rest,
    }
}

// The part that is shown of a line of this length: all of it, or of a long one what stands around the place `at`.
pub fn shown_part(length: usize, at: usize) -> Range<usize> {
    if length <= SHOWN {
        return 0..length;
    }
    let from = at.saturating_sub(BEFORE);
    from..length.min(from.saturating_add(SHOWN))
}

// A byte as it is shown: tab and printable ASCII alone, since others could set a terminal.
pub fn shown_byte(b: u8) -> u8 {
    match b {
        b'\t' | b' '..=b'~' => b,
        _ => b'?',
    }
}
