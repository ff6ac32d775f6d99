// What comes next in a run.
ghost use Rattle.std.specs.Prelude.{◌≡◌, Bool};
ghost use Rattle.forward.specs.Twins.Next.{next_place, ends_at, over_in};

use heap::configuration::Configuration;
use heap::entry;
use linking::code::{CALL, link_at};

// Where the term stands to which the one at `place` leads: the body of a call, the branch of a condition.
pub(crate) fn next_place(code: &[u16; 24582], place: usize, taken: bool) -> usize
    ensures { result ≡ next_place code.now place taken }
{
    let l = link_at(code, place);
    usize::from(if taken { l.first } else { l.second })
}

// "A state whose term is an e is an end".
pub(crate) fn ends_at(code: &[u16; 24582], i: usize) -> bool
    ensures { result ≡ ends_at code.now i }
{
    link_at(code, i).mark < CALL
}

// "21 over 4,096 nodes": "Its nodes are those of the inputs and the environment values". The symbol that stands as wanted output is one more.
pub(crate) fn is_over(frame: &[u16; 12360], c: Configuration) -> bool
    ensures { result ≡ over_in c frame.now }
{
    4097 < entry::nodes(frame, c.entries)
}
