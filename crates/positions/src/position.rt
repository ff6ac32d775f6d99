// Where a walk stands.
ghost use Rattle.std.specs.Prelude.{◌≡◌, Bool};
ghost use Rattle.positions.specs.Twins.Positions.{positioned, at_depth, moved_from, after_step, kept_top, taken_up};

use heap::configuration::Configuration;
use restrictions::failure::Failure;
use saving::head::Node;
use saving::saved::Back;

// A node, and the top of the saved configurations.
#[derive(Clone, Copy)]
pub struct Position {
    pub node: Node,
    pub top: usize,
}

// The job's N, W and T, and where the first saved configuration ends: a walk on top of another one has it above the other's.
#[derive(Clone, Copy)]
pub struct Bounds {
    pub steps: usize,
    pub walk: usize,
    pub table: usize,
    pub base: usize,
}

// The same node with its configuration put together otherwise, and this top.
pub fn position_at(n: Node, c: Configuration, top: usize) -> Position
    ensures { result ≡ positioned n c top }
{
    Position {
        node: Node { at: c, ..n },
        top,
    }
}

// The same node with so many choices made, and this top.
pub fn at_depth(n: Node, depth: usize, top: usize) -> Position
    ensures { result ≡ at_depth n depth top }
{
    Position {
        node: Node { depth, ..n },
        top,
    }
}

// One transition deeper; a decision is a choice more.
pub fn moved_from(p: Position, c: Configuration, decided: bool) -> Position
    ensures { result ≡ moved_from p c decided }
{
    let n = p.node;
    let steps = n.steps.min(65535) + 1;
    let depth = if decided {
        n.depth.min(65535) + 1
    } else {
        n.depth
    };
    Position {
        node: Node {
            at: c,
            steps,
            depth,
        },
        ..p
    }
}

// Behind a transition of the path, which never fails: it was made before.
pub fn after_step(p: Position, m: Result<Configuration, Failure>, decided: bool) -> Position
    ensures { result ≡ after_step p m decided }
{
    match m {
        Ok(c) => moved_from(p, c, decided),
        Err(_) => p,
    }
}

// The first saved configuration stays.
fn kept_top(from: usize, top: usize, base: usize) -> usize
    ensures { result ≡ kept_top from top base }
{
    if top <= base { base } else { from }
}

// The saved configuration that ended at `top` taken up again.
pub fn taken_up(back: Back, top: usize, base: usize) -> Position
    ensures { result ≡ taken_up back top base }
{
    Position {
        node: back.node,
        top: kept_top(back.top, top, base),
    }
}
