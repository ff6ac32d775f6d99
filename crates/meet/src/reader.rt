// From the bytes of a line to cells. A place past the end of the line has the byte 0, which stands in no token, so a line
// that ends early is broken at its length.
ghost use Rattle.std.specs.Prelude.{◌≤◌, length, max, IfOk, IfSome};
ghost use Rattle.meet.specs.Twins.Reading.{Onward, Behind};

use brackets::place::{Broken, Place, inside, pass};
use cells::cell::byte;
use cells::part::part;
use meetings::class::NODES;
use sets::{contraction, tree};

// "64 brackets open together", "1,024 different symbols"
pub const BRACKETS: usize = 64;

pub const SYMBOLS: usize = 1024;

// How many cells the two expressions have, and the non-equalities.
#[derive(Clone, Copy)]
pub struct Problem {
    pub wanted: usize,
    pub output: usize,
    pub neqs: usize,
}

// Why a line is no problem. Blank: nothing stands in it.
#[derive(Clone, Copy)]
pub enum Unread {
    Blank,
    Broken(Broken),
}

impl From<Broken> for Unread {
    fn from(broken: Broken) -> Unread {
        Unread::Broken(broken)
    }
}

// A leaf's code, and the symbols met with it.
#[derive(Clone, Copy)]
struct LeafCode {
    code: u16,
    symbols: usize,
}

fn is_blank(b: u8) -> bool {
    matches!(b, b' ' | b'\t')
}

// Whether a word ends before this byte.
fn ends_word(b: u8) -> bool {
    matches!(b, b' ' | b'\t' | b'(' | b')' | b'[' | b']')
}

// The first place from `from` on whose byte is such a one, or the end of the text.
fn find<F: Fn(u8) -> bool>(text: &[u8], from: usize, wanted: F) -> usize
    requires { F.IsAlwaysCallable wanted }
    ensures { from ≤ result }
{
    for i in from..text.len() {
        if wanted(text[i]) {
            return i;
        }
    }
    from.max(text.len())
}

// The place of the next token: behind the blanks.
fn token(text: &[u8], from: usize) -> usize
    ensures { from ≤ result }
{
    find(text, from, |b| !is_blank(b))
}

// The place behind the word that starts at `from`.
pub fn word_end(text: &[u8], from: usize) -> usize
    ensures { from ≤ result }
{
    find(text, from, ends_word)
}

// Whether a word, in which none ends, stands at a place, and ends there.
fn stands(text: &[u8], at: usize, word: &[u8]) -> bool {
    let rest = part(text, at, text.len());
    for (i, b) in word.iter().enumerate() {
        if byte(rest, i) != *b {
            return false;
        }
    }
    word_end(rest, word.len()) == word.len()
}

// "Z have 1 to 16 letters or digits"
fn is_name(name: &[u8]) -> bool {
    (1..=16).contains(&name.len()) && name.iter().all(|b| b.is_ascii_alphanumeric())
}

// A digit's value.
fn digit(b: u8) -> Option<u16>
    ensures { IfSome result (λ d. d ≤ 9) }
{
    match b {
        b'0'..=b'9' => Some(u16::from(b - b'0')),
        _ => None,
    }
}

// "Numerals are base ten, no leading noughts", "K is 1 to 999".
fn number(numeral: &[u8]) -> Option<u16>
    ensures { IfSome result (λ k. k ≤ 999) }
{
    if let [] | [b'0', ..] = numeral {
        return None;
    }
    let mut n: u16 = 0;
    for b in numeral {
        n = 10 * n + digit(*b)?;
        if 999 < n {
            return None;
        }
    }
    Some(n)
}

// The number of the symbol whose word this is, `symbols` for one that was not met.
fn symbol_number(text: &[u8], word: &[u8], names: &[usize], symbols: usize) -> usize
    ensures { result ≤ symbols }
{
    for z in 0..symbols {
        if stands(text, name_at(names, z), word) {
            return z;
        }
    }
    symbols
}

// The offset at which a symbol first stands; no symbol stands past the end of the names.
pub fn name_at(names: &[usize], z: usize) -> usize {
    names.get(z).copied().unwrap_or(0)
}

// Notes where a symbol first stands.
fn put_name(names: &mut [usize], z: usize, at: usize) {
    if let Some(name) = names.get_mut(z) {
        *name = at;
    }
}

// A symbol's code, and one symbol more where it was not met; one too many has no code.
fn symbol(
    text: &[u8],
    at: usize,
    word: &[u8],
    names: &mut [usize],
    symbols: usize,
) -> Option<LeafCode> {
    let z = symbol_number(text, word, names, symbols);
    if SYMBOLS <= z {
        return None;
    }
    let code = contraction::code(z as u16, 1);
    if z < symbols {
        return Some(LeafCode { code, symbols });
    }
    put_name(names, z, at);
    Some(LeafCode {
        code,
        symbols: z + 1,
    })
}

// The code of `?eK` or `?aK`.
fn variable(word: &[u8]) -> Option<u16> {
    match word {
        [_, b'e', numeral @ ..] => Some(contraction::code(number(numeral)?, 2)),
        [_, b'a', numeral @ ..] => Some(contraction::code(number(numeral)?, 3)),
        _ => None,
    }
}

// The leaf whose word stands from one place up to another.
fn leaf(
    text: &[u8],
    at: usize,
    end: usize,
    names: &mut [usize],
    symbols: usize,
) -> Option<LeafCode> {
    let word = part(text, at, end);
    match word {
        [b'\'', name @ ..] if is_name(name) => symbol(text, at, word, names, symbols),
        [b'?', ..] => {
            let code = variable(word)?;
            Some(LeafCode { code, symbols })
        }
        _ => None,
    }
}

// One cell more, at the next place; broken at the token where the run has no room.
fn store(cells: &mut [u16], code: u16, token: usize, next: Place) -> Result<Place, Broken>
    ensures { Behind next result }
{
    let n = next.cells;
    if cells.len() <= n {
        return Err(Broken { at: token });
    }
    cells[n] = code;
    Ok(Place {
        cells: n + 1,
        ..next
    })
}

// Behind the bracket that must stand next.
fn bracket(text: &[u8], from: Place, b: u8) -> Result<Place, Broken>
    ensures { Onward from result }
{
    pass(text, from, token(text, from.at), b)
}

// Behind the word `cons`.
fn keyword(text: &[u8], from: Place) -> Result<Place, Broken> {
    let at = token(text, from.at);
    if !stands(text, at, b"cons") {
        return Err(Broken { at });
    }
    Ok(Place {
        at: word_end(text, at),
        ..from
    })
}

// Behind `(cons`, with the pair's cell stored; `at` is the bracket's place.
fn pair_start(text: &[u8], from: Place, at: usize, cells: &mut [u16]) -> Result<Place, Broken> {
    let opened = bracket(text, from, b'(')?;
    let stored = store(cells, tree::PAIR, at, opened)?;
    keyword(text, stored)
}

// The leaf at a token, in an expression.
fn expression_leaf(
    text: &[u8],
    from: Place,
    at: usize,
    cells: &mut [u16],
    names: &mut [usize],
) -> Result<Place, Broken> {
    let end = word_end(text, at);
    let read = leaf(text, at, end, names, from.symbols).ok_or(Broken { at })?;
    let next = Place {
        at: end,
        cells: from.cells,
        symbols: read.symbols,
    };
    store(cells, read.code, at, next)
}

// An expression, while at most `open` more brackets may be open together.
fn expression(
    text: &[u8],
    from: Place,
    open: usize,
    cells: &mut [u16],
    names: &mut [usize],
) -> Result<Place, Broken> {
    let at = token(text, from.at);
    if byte(text, at) != b'(' {
        return expression_leaf(text, from, at, cells, names);
    }
    if open == 0 {
        return Err(Broken { at });
    }
    let start = pair_start(text, from, at, cells)?;
    let left = inside(open);
    let head = expression(text, start, left, cells, names)?;
    let tail = expression(text, head, left, cells, names)?;
    bracket(text, tail, b')')
}

// A side of a non-equality: a symbol or a `?a`.
fn side(text: &[u8], from: Place, q: &mut [u16], names: &mut [usize]) -> Result<Place, Broken>
    ensures { Behind from result }
{
    let at = token(text, from.at);
    let end = word_end(text, at);
    let read = leaf(text, at, end, names, from.symbols).ok_or(Broken { at })?;
    if read.code % 2 == 0 {
        return Err(Broken { at });
    }
    let next = Place {
        at: end,
        cells: from.cells,
        symbols: read.symbols,
    };
    store(q, read.code, at, next)
}

// A non-equality, `[D D]`.
fn non_equality(
    text: &[u8],
    from: Place,
    q: &mut [u16],
    names: &mut [usize],
) -> Result<Place, Broken>
    ensures { Onward from result }
{
    let opened = bracket(text, from, b'[')?;
    let left = side(text, opened, q, names)?;
    let right = side(text, left, q, names)?;
    bracket(text, right, b']')
}

// The non-equalities up to the line's end. Each moves on, so that the loop ends.
fn non_equalities(
    text: &[u8],
    from: Place,
    q: &mut [u16],
    names: &mut [usize],
) -> Result<Place, Broken> {
    let mut place = from;
    while token(text, place.at) < text.len() {
        place = non_equality(text, place, q, names)?;
    }
    Ok(place)
}

// The same place, where a new run of cells starts.
fn new_run(from: Place) -> Place {
    Place { cells: 0, ..from }
}

// A line: the wanted expression into the first 4,096 cells, the output into the next, the non-equalities into q.
pub fn read_problem(
    text: &[u8],
    cells: &mut [u16],
    q: &mut [u16],
    names: &mut [usize],
) -> Result<Problem, Unread> {
    if text.len() <= token(text, 0) {
        return Err(Unread::Blank);
    }
    let start = Place {
        at: 0,
        cells: 0,
        symbols: 0,
    };
    let end = cells.len().min(2 * NODES);
    let middle = end.min(NODES);
    let wanted = expression(text, start, BRACKETS, &mut cells[..middle], names)?;
    let output = expression(
        text,
        new_run(wanted),
        BRACKETS,
        &mut cells[middle..end],
        names,
    )?;
    let last = non_equalities(text, new_run(output), q, names)?;
    Ok(Problem {
        wanted: wanted.cells,
        output: output.cells,
        neqs: last.cells / 2,
    })
}
