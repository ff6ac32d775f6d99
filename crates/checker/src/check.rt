// What the check of a program by its tokens goes by (specs/Twins/CheckAt.antt): the names in reach, the definitions, the bodies.
ghost use Rattle.std.specs.Prelude.{◌≡◌, get_or};

use refusals::refusal::Refusal;

// The names in reach, latest last, each by the index of a token that has it: 16 parameters, and two names for each of 64 open brackets. A
// walk is lent the cells and handed how many of them are used, so that no bracket that it opens takes a copy of them.
#[derive(Drop)]
pub struct Names {
    pub cells: [usize; 144],
    pub used: usize,
}

// The definitions so far, each by the index of its name; the index past them, and the first fault of 6.
#[derive(Drop)]
pub struct Defs {
    pub heads: [usize; 64],
    pub count: usize,
    pub past: usize,
    pub names: Result<(), Refusal>,
}

// The bodies of a program's definitions: the first fault of 13, the first of 7, 8 and 9.
#[derive(Clone, Copy)]
pub struct Bodies {
    pub rebound: Result<(), Refusal>,
    pub uses: Result<(), Refusal>,
}

// The index at `i`, 0 past the end.
pub fn index(s: &[usize], i: usize) -> usize
    ensures { result ≡ get_or s.now i 0 }
{
    s.get(i).copied().unwrap_or(0)
}
