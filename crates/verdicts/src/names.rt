// What is decided of a name, by the kinds, numbers and keys of the tokens that have it (words/src/keys.rt), and of whether it is in reach.
ghost use Rattle.std.specs.Prelude.{◌≡◌, ◌&&◌, ◌||◌, not, eqb};
ghost use Rattle.verdicts.specs.Twins.Found.{judge};

use crate::found::judge;
use refusals::refusal::Refusal;

// The key of `(`, and the kinds of a symbol and of an `e.NAME`.
const OPEN: u16 = 1;

const SYMBOL: u16 = 0;

const ENAME: u16 = 1;

// "`e.x` and `a.x` are two variables."
pub fn is_same(kind: u16, num: u16, other_kind: u16, other_num: u16) -> bool
    ensures { result ≡ (eqb kind other_kind && eqb num other_num) }
{
    kind == other_kind && num == other_num
}

// An ea: neither a pair nor an `e.NAME`.
pub fn is_atomic(key: u16, kind: u16) -> bool
    ensures { result ≡ (not (eqb key 1) && not (eqb kind 1)) }
{
    key != OPEN && kind != ENAME
}

// "11 a `neq` side not atomic, or its `?a` in neither input nor output": a `?a` that stands there is marked by 1.
pub fn is_side(atomic: bool, kind: u16, marked: u16) -> bool
    ensures { result ≡ (atomic && (eqb kind 0 || eqb marked 1)) }
{
    atomic && (kind == SYMBOL || marked == 1)
}

// "9 variable not in reach"
pub fn used_name(reached: bool, offset: usize) -> Result<(), Refusal>
    ensures { result ≡ judge reached 9 offset }
{
    judge(reached, 9, offset)
}

// "A name .. that a `cons?` binds may no longer be one already in reach": 13 (02, request 1).
pub fn bound(reached: bool, offset: usize) -> Result<(), Refusal>
    ensures { result ≡ judge (not reached) 13 offset }
{
    judge(!reached, 13, offset)
}

// "6 .. equal names in one `cons?`": those of head and tail, at the second.
pub fn bound_twice(head: u16, tail: u16, offset: usize) -> Result<(), Refusal>
    ensures { result ≡ judge (not (eqb head tail)) 6 offset }
{
    judge(head != tail, 6, offset)
}
