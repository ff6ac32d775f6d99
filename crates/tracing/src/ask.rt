// What the term of a configuration asks.
ghost use Rattle.std.specs.Prelude.{◌≡◌};
ghost use Rattle.tracing.specs.Twins.Asking.{ask_left, asked_at, is_call, branches_asked};

use atoms::atom::sides_at;
use atoms::choice::same_branches;
use heap::configuration::{Branches, Configuration};
use linking::code::{CALL, SAME, TEST, link_at};
use looking::look::{Tested, look};
use pairs::branch::branches_of;

// End: an expression, whose value is the output. Call: a call. Same: an `eqa?` of these two items. Test: a `cons?` on this.
#[derive(Clone, Copy)]
pub enum Asked {
    End,
    Call,
    Same { left: u16, right: u16 },
    Test(Tested),
}

// The value that a `cons?` tests is written behind what is used, where it has no place yet.
pub fn ask(
    code: &[u16; 24582],
    heap: &mut [u16; 65535],
    frame: &[u16; 12360],
    c: Configuration,
) -> Asked
    ensures { ask_left result heap.new ≡ asked_at code.now c heap.old frame.now }
{
    match link_at(code, c.place).mark {
        CALL => Asked::Call,
        SAME => {
            let s = sides_at(code, heap, frame, c);
            Asked::Same {
                left: s.left,
                right: s.right,
            }
        }
        TEST => Asked::Test(look(code, heap, frame, c)),
        _ => Asked::End,
    }
}

pub fn is_call(a: Asked) -> bool
    ensures { result ≡ is_call a }
{
    matches!(a, Asked::Call)
}

// Which of a condition's two branches there are: "A branch that contradicts is no transition."
pub fn branches(q: &[u16; 4096], neqs: usize, a: Asked) -> Branches
    ensures { result ≡ branches_asked neqs a q.now }
{
    match a {
        Asked::End | Asked::Call => Branches {
            yes: false,
            no: false,
        },
        Asked::Same { left, right } => same_branches(q, neqs, left, right),
        Asked::Test(t) => branches_of(t),
    }
}
