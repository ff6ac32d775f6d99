// The table of constants: two cells a token, behind the cells of the linked program.
ghost use Rattle.std.specs.Prelude.{◌≡◌};
ghost use Rattle.constants.specs.Twins.Table.{constant_at, entered};

use cells::cell;
use linking::code::TOKENS;

// Where the value of the expression that starts at a token stands in the heap; an empty range where it has names, or no expression starts there.
#[derive(Clone, Copy)]
pub struct Constant {
    pub from: usize,
    pub to: usize,
}

// That of the token i; nothing past the last one.
pub fn constant_at(code: &[u16; 24582], i: usize) -> Constant
    ensures { result ≡ constant_at code.now i }
{
    if i < TOKENS {
        return Constant {
            from: usize::from(code[16388 + 2 * i]),
            to: usize::from(code[16389 + 2 * i]),
        };
    }
    Constant { from: 0, to: 0 }
}

// The range of the token i, where there is one.
pub fn enter(code: &mut [u16; 24582], i: usize, from: usize, to: usize)
    ensures { code.new ≡ entered i from to code.old }
{
    if i < TOKENS {
        code[16388 + 2 * i] = cell::narrow(from);
        code[16389 + 2 * i] = cell::narrow(to);
    }
}
