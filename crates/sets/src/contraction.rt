// Contractions, over the codes of variables and symbols.
ghost use Rattle.std.specs.Prelude.{◌≡◌, ◌+◌, ◌*◌, ◌%◌};
ghost use Rattle.sets.specs.Twins.Contracting.{equality};

// A substitution of one variable, by one cell or by a pair of two, or a restriction by one non-equality; and the two
// special contractions. What each means is `contraction_of` of specs/.
#[derive(Drop)]
pub enum Contraction {
    Identity,
    Contradiction,
    Bind { var: u16, to: u16 },
    BindPair { var: u16, head: u16, tail: u16 },
    NonEqual { left: u16, right: u16 },
}

impl Contraction {
    // "the identity contraction and the contradiction as the two special ones"
    pub const IDENTITY: Contraction = Contraction::Identity;

    pub const CONTRADICTION: Contraction = Contraction::Contradiction;
}

// The code of a number and a tag; numbers from 16,384 on have none.
pub fn code(n: u16, tag: u16) -> u16
    ensures { result ≡ 4 * (n % 16384) + tag % 4 }
{
    4 * (n % 16384) + tag % 4
}

// What makes two atomic codes equal: "the true branch binds the left side to the right if left is a variable, else right to left".
pub fn equality_contraction(x: u16, y: u16) -> Contraction
    ensures { result ≡ equality x y }
{
    if x == y {
        return Contraction::IDENTITY;
    }
    if x % 4 == 3 {
        return Contraction::Bind { var: x, to: y };
    }
    if y % 4 == 3 {
        return Contraction::Bind { var: y, to: x };
    }
    Contraction::CONTRADICTION
}
