// What a check finds, nothing or the first fault, and how what is found of the parts joins (specs/Twins/Found.antt): of two faults `a` and `b` the first
// is `a.and(b)`.
ghost use Rattle.std.specs.Prelude.{◌≡◌};
ghost use Rattle.verdicts.specs.Twins.Found.{fine, first, judge, walked, called, branched};

use refusals::refusal::Refusal;

// What was walked over: the index past it, the first fault of 6, the first of 13, the first of 7, 8 and 9.
#[derive(Clone, Copy)]
pub struct Walked {
    pub past: usize,
    pub names: Result<(), Refusal>,
    pub rebound: Result<(), Refusal>,
    pub uses: Result<(), Refusal>,
}

// The arguments of a call: the index of their closing bracket, whether they are as many as the parameters, the first fault of 8 and 9.
#[derive(Clone, Copy)]
pub struct Args {
    pub past: usize,
    pub fits: bool,
    pub uses: Result<(), Refusal>,
}

// A fault unless the test passes.
pub fn judge(passes: bool, number: usize, offset: usize) -> Result<(), Refusal>
    ensures { result ≡ judge passes number offset }
{
    if passes {
        return Ok(());
    }
    Err(Refusal { number, offset })
}

// What was walked over comes to, where no name is bound: the faults of its uses.
pub fn uses_only(past: usize, uses: Result<(), Refusal>) -> Walked
    ensures { result ≡ walked past fine fine uses }
{
    Walked {
        past,
        names: Ok(()),
        rebound: Ok(()),
        uses,
    }
}

// What a call comes to, by what was found of its name and of its arguments: its name stands first.
pub fn called(past: usize, callee: Result<(), Refusal>, arguments: Result<(), Refusal>) -> Walked
    ensures { result ≡ called past callee arguments }
{
    uses_only(past, callee.and(arguments))
}

// What an `if` comes to, by what was found of its condition `c`, of its true branch `s` and of its false branch `u`, which stand in this order.
#[tactic(auto, unfolding(crate::specs::Twins::Found::branched))]
pub fn branched(past: usize, c: Walked, s: Walked, u: Walked) -> Walked
    ensures { result ≡ branched past c s u }
{
    Walked {
        past,
        names: c.names.and(s.names.and(u.names)),
        rebound: c.rebound.and(s.rebound.and(u.rebound)),
        uses: c.uses.and(s.uses.and(u.uses)),
    }
}

// The fault of a program by the first ones of 6, of 13, and of 7, 8 and 9: "Program: 6; then 7, 8, 9 at the earliest token" (01, "From the input"); 13 "after 6 and
// before 7, 8 and 9" (02, request 1).
pub fn in_order(
    names: Result<(), Refusal>,
    rebound: Result<(), Refusal>,
    uses: Result<(), Refusal>,
) -> Result<(), Refusal>
    ensures { result ≡ first names (first rebound uses) }
{
    names.and(rebound.and(uses))
}
