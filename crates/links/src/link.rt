// Where parts of a program stand, by the index of a token; what a word is; how many names are in reach.
ghost use Rattle.std.specs.Prelude.{◌≡◌, cond, ◌+◌, ◌-◌, ◌%◌, min, eqb, ltb};

use cells::cell;

// The body of a definition stands behind the bracket that closes its parameters: "`(define F [x ..] t)`".
pub fn body_behind(close: usize) -> u16
    ensures { result ≡ (min close 4097 + 1) % 65536 }
{
    cell::low(close.min(4097) + 1)
}

// The number of the last of so many definitions.
pub fn last_of(count: usize) -> usize
    ensures { result ≡ count - 1 }
{
    count.saturating_sub(1)
}

// The bracket that opens the definition whose name stands here: "`(define F [x ..] t)`".
pub fn bracket_of(name: usize) -> usize
    ensures { result ≡ name - 2 }
{
    name.saturating_sub(2)
}

// The key of `cons` (words/src/keys.rt): "e: `(cons e e)`, xe or ea".
pub fn is_pair(key: u16) -> bool
    ensures { result ≡ eqb key 8 }
{
    key == 8
}

// How many names are in reach with one more: the place of the next. They have 144 cells.
pub fn with_one(used: usize) -> usize
    ensures { result ≡ cond (ltb used 144) (used + 1) used }
{
    if used < 144 {
        return used + 1;
    }
    used
}
