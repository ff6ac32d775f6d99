// What a walk has found, and what it comes to.
ghost use Rattle.std.specs.Prelude.{◌≡◌};
ghost use Rattle.turns.specs.Twins.Finding.{walked, nothing_found, counted, cut_off, with_lines};

use lines::line::Lines;

// The transitions made, the lines, whether a path was cut.
#[derive(Clone, Copy)]
pub struct Found {
    pub count: usize,
    pub lines: Lines,
    pub cut: bool,
}

// Done: nothing is untaken. Over: 21. Full: 22. Spent: 23.
#[derive(Clone, Copy)]
pub enum Ending {
    Done,
    Over,
    Full,
    Spent,
}

// What a walk comes to.
#[derive(Clone, Copy)]
pub struct Walked {
    pub found: Found,
    pub ending: Ending,
}

pub fn stopped(ending: Ending, found: Found) -> Walked
    ensures { result ≡ walked ending found }
{
    Walked { found, ending }
}

// What a walk has found before its first transition.
pub fn nothing() -> Found
    ensures { result ≡ nothing_found }
{
    Found {
        count: 0,
        lines: Lines {
            count: 0,
            nodes: 0,
            top: 0,
        },
        cut: false,
    }
}

// "It counts each transition of the tree once".
pub fn count(f: Found) -> Found
    ensures { result ≡ counted f }
{
    Found {
        count: f.count.min(1000000) + 1,
        ..f
    }
}

// "cut if a configuration N deep is no end"
pub fn cut_off(f: Found) -> Found
    ensures { result ≡ cut_off f }
{
    Found { cut: true, ..f }
}

pub fn with_lines(f: Found, lines: Lines) -> Found
    ensures { result ≡ with_lines f lines }
{
    Found { lines, ..f }
}
