// A linked program: four cells a token, a mark and three numbers.
//
//     mark     first        second         past
//     NOTHING  0            0              the index past what starts here
//     CELL     the cell     0              the next index: a symbol, or `cons` with the cell of a pair
//     NAME     its place    0              the next index
//     CALL     parameters   the body       the index past the call; its arguments begin four tokens on
//     SAME     true branch  false branch   the index past the `if`; the first side of its `eqa?` begins four tokens on
//     TEST     true branch  false branch   the index past the `if`; what its `cons?` tests begins four tokens on
//
// A name's place is counted from the first name in reach: the parameters in order, then what each `cons?` on the way binds. The tokens at which names
// are bound need no link: a name that is bound comes behind those in reach. A mark is a number and no enum, since a program lies in cells (no heap, fixed memory)
// and specs/Twins/Code.antt says of cells of any content what a token is linked to.
ghost use Rattle.std.specs.Prelude.{◌≡◌};
ghost use Rattle.linking.specs.Twins.Code.{link_at, with_link};

pub const NOTHING: u16 = 0;

pub const CELL: u16 = 1;

pub const NAME: u16 = 2;

pub const CALL: u16 = 3;

pub const SAME: u16 = 4;

pub const TEST: u16 = 5;

// "a text 4,096 tokens", and one for the end.
pub const TOKENS: usize = 4097;

// A token's four cells.
#[derive(Clone, Copy)]
pub struct Link {
    pub mark: u16,
    pub first: u16,
    pub second: u16,
    pub past: u16,
}

// The token i; nothing past the last one.
#[tactic(auto, unfolding(crate::specs::Twins::Code::link_at))]
pub fn link_at(code: &[u16; 24582], i: usize) -> Link
    ensures { result ≡ link_at code.now i }
{
    if i < TOKENS {
        return Link {
            mark: code[4 * i],
            first: code[4 * i + 1],
            second: code[4 * i + 2],
            past: code[4 * i + 3],
        };
    }
    Link {
        mark: 0,
        first: 0,
        second: 0,
        past: 0,
    }
}

// The token i set, where there is one.
#[tactic(auto, unfolding(crate::specs::Twins::Code::with_link))]
pub(crate) fn set_link(code: &mut [u16; 24582], i: usize, l: Link)
    ensures { code.new ≡ with_link i l code.old }
{
    if i < TOKENS {
        code[4 * i] = l.mark;
        code[4 * i + 1] = l.first;
        code[4 * i + 2] = l.second;
        code[4 * i + 3] = l.past;
    }
}
