// The lines that a walk has found, in the answer storage one behind the other.
ghost use Rattle.std.specs.Prelude.{◌≡◌};
ghost use Rattle.lines.specs.Twins.Lines.{nodes_in_line, lines_more, add_left, line_added};

use heap::entry;
use meetings::class::Class;
use meetings::line::put_line;

// How many lines there are, their nodes, and the cells of the answer storage that they take.
#[derive(Clone, Copy)]
pub struct Lines {
    pub count: usize,
    pub nodes: usize,
    pub top: usize,
}

// "inputs, output, 2 for each non-equality"; a count above 65,535 is as one of 65,535, which no storage holds.
fn line_nodes(frame: &[u16; 12360], c: Class) -> usize
    ensures { result ≡ nodes_in_line c frame.now }
{
    entry::nodes(frame, c.entries).min(65535) + 2 * c.neqs.min(65535)
}

fn one_more(l: Lines, nodes: usize, top: usize) -> Lines
    ensures { result ≡ lines_more l nodes top }
{
    Lines {
        count: l.count.min(65535) + 1,
        nodes,
        top,
    }
}

// The lines now. None: "22 a line would be number T+1, or take the lines .. over 16,384 nodes".
pub fn add_line(
    heap: &[u16; 65535],
    frame: &[u16; 12360],
    q: &[u16; 4096],
    answer: &mut [u16],
    c: Class,
    steps: usize,
    table: usize,
    l: Lines,
) -> Option<Lines>
    ensures { add_left result answer.new ≡ line_added c steps table l heap.now frame.now q.now answer.old }
{
    if table <= l.count {
        return None;
    }
    let nodes = l.nodes.min(65535) + line_nodes(frame, c);
    if 16384 < nodes {
        return None;
    }
    let top = put_line(heap, frame, q, c, steps, answer, l.top);
    Some(one_more(l, nodes, top))
}
