// What a turn decides by value: which way on a node has, which branch is taken first, whether a transition may still be made.
ghost use Rattle.std.specs.Prelude.{◌≡◌, Bool};
ghost use Rattle.turns.specs.Twins.Choices.{is_both, first_branch, is_result, is_deep, is_over, is_spent, way_on};

use crate::found::Found;
use heap::configuration::Branches;
use linking::code::{CALL, SAME, TEST};
use positions::position::Bounds;
use saving::head::Node;

// Call: a call. Choice: a condition. Leaf: none, as at an end and N deep.
#[derive(Clone, Copy)]
pub enum Way {
    Call,
    Choice,
    Leaf,
}

pub fn is_both(b: Branches) -> bool
    ensures { result ≡ is_both b }
{
    b.no && b.yes
}

// "true branch first": whether it is the true one, where b are those there are.
pub fn first_branch(b: Branches) -> bool
    ensures { result ≡ first_branch b }
{
    b.yes
}

// Whether a term with this mark is an end: an expression.
pub fn is_result(mark: u16) -> bool
    ensures { result ≡ is_result mark }
{
    mark != CALL && mark != SAME && mark != TEST
}

// "goes N transitions deep"
pub fn is_deep(b: Bounds, n: Node) -> bool
    ensures { result ≡ is_deep b n }
{
    b.steps <= n.steps
}

// "21 over 4,096 nodes: at the start"
pub fn is_over(nodes: usize) -> bool
    ensures { result ≡ is_over nodes }
{
    4096 < nodes
}

// "23 a transition would be number W+1"
pub fn is_spent(walk: usize, f: Found) -> bool
    ensures { result ≡ is_spent walk f }
{
    walk <= f.count
}

// "22 a line would be number T+1": how many lines may be kept.
pub fn lines_kept(b: Bounds) -> usize
    ensures { result ≡ b.table }
{
    b.table
}

// The way on from a node whose term has this mark.
pub fn way_on(mark: u16, b: Bounds, n: Node) -> Way
    ensures { result ≡ way_on mark b n }
{
    if is_result(mark) || is_deep(b, n) {
        Way::Leaf
    } else if mark == CALL {
        Way::Call
    } else {
        Way::Choice
    }
}
