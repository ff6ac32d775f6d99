// Where a walk stands and what it has found; how it goes on from a leaf and behind a transition. Decisions by value.
ghost use Rattle.std.specs.Prelude.{◌≡◌};
ghost use Rattle.turns.specs.Twins.States.{state_at, after_end, cut_at, after_move};

use crate::found;
use crate::found::{Ending, Found, Walked, cut_off, stopped, with_lines};
use heap::configuration::Configuration;
use lines::end::Unstored;
use lines::line::Lines;
use positions::position::{Position, moved_from};
use restrictions::failure::Failure;

// What has been found stands first, where it also stands in `Walked`: a field of one case of a `Turn` that lay across two of the other would be moved byte by byte.
#[derive(Clone, Copy)]
pub struct State {
    pub found: Found,
    pub at: Position,
}

// A node that the walk goes on from, or what it comes to.
pub type Turn = Result<State, Walked>;

pub fn state_at(at: Position, found: Found) -> State
    ensures { result ≡ state_at at found }
{
    State { found, at }
}

// Behind an end: the walk goes back, or "22", or "21".
pub fn after_end(s: State, e: Result<Lines, Unstored>) -> Turn
    ensures { result ≡ after_end s e }
{
    match e {
        Ok(l) => Ok(state_at(s.at, with_lines(s.found, l))),
        Err(Unstored::Over) => Err(stopped(Ending::Over, s.found)),
        Err(Unstored::Full) => Err(stopped(Ending::Full, s.found)),
    }
}

// "cut if a configuration N deep is no end"
pub fn cut(s: State) -> State
    ensures { result ≡ cut_at s }
{
    state_at(s.at, cut_off(s.found))
}

// The node behind a transition, or 21. A decision has been counted among the choices already.
pub fn after_move(s: State, m: Result<Configuration, Failure>) -> Turn
    ensures { result ≡ after_move s m }
{
    let f = found::count(s.found);
    match m {
        Ok(c) => Ok(state_at(moved_from(s.at, c, false), f)),
        Err(_) => Err(stopped(Ending::Over, f)),
    }
}
