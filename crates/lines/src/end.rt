// "A state whose term is an e is an end; its value is the output." The output stands behind inputs and wanted output in place of the environment.
ghost use Rattle.std.specs.Prelude.{◌≡◌};
ghost use Rattle.meetings.specs.Twins.Unifying.{met_left};
ghost use Rattle.lines.specs.Twins.Ends.{class_at, output_met, end_left, met_end};

use crate::line::{Lines, add_line};
use heap::configuration::Configuration;
use heap::entry::push_entry;
use meetings::class::{Class, Met};
use meetings::unifier::unify;
use restrictions::failure::Failure;
use saving::head::Node;
use values::names::names_from;
use values::value::value;

// Why an end stops the walk. Over: 21. Full: 22.
#[derive(Clone, Copy)]
pub enum Unstored {
    Over,
    Full,
}

fn class_at(c: Configuration, used: usize) -> Class
    ensures { result ≡ class_at c used }
{
    Class {
        entries: names_from(c),
        used,
        neqs: c.neqs,
        floor: c.used,
    }
}

// The output meets the wanted one.
fn meet_output(
    code: &[u16; 24582],
    heap: &mut [u16; 65535],
    frame: &mut [u16; 12360],
    q: &mut [u16; 4096],
    c: Configuration,
) -> Met
    ensures { met_left result heap.new frame.new q.new ≡ output_met code.now c heap.old frame.old q.old }
{
    let base = names_from(c);
    let Some(v) = value(code, heap, frame, base, c.used, c.place) else {
        return Err(Failure::Over);
    };
    push_entry(frame, base, v.known, v.from, v.to);
    unify(heap, frame, q, class_at(c, v.used))
}

// The lines there are then: "Failure or contradiction gives no line".
pub fn meet_end(
    code: &[u16; 24582],
    heap: &mut [u16; 65535],
    frame: &mut [u16; 12360],
    q: &mut [u16; 4096],
    answer: &mut [u16],
    n: Node,
    table: usize,
    l: Lines,
) -> Result<Lines, Unstored>
    ensures { end_left result heap.new frame.new q.new answer.new ≡ met_end code.now n table l heap.old frame.old q.old answer.old }
{
    match meet_output(code, heap, frame, q, n.at) {
        Ok(c) => add_line(heap, frame, q, answer, c, n.steps, table, l).ok_or(Unstored::Full),
        Err(Failure::Contradiction) => Ok(l),
        Err(Failure::Over) => Err(Unstored::Over),
    }
}
