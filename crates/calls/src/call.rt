// A call: "the arguments are valued in the old environment; next is F's body in a fresh one". The new entries are made behind the old ones and
// then moved down.
ghost use Rattle.std.specs.Prelude.{◌≡◌};
ghost use Rattle.heap.specs.Twins.Moving.{moved};
ghost use Rattle.calls.specs.Twins.Calls.{in_body, called_to};

use crate::arguments::{Argued, arguments};
use heap::configuration::Configuration;
use heap::entry;
use linking::code::link_at;
use restrictions::failure::Failure;
use values::size::kept_nodes;

// The configuration in a body, with n names in reach.
fn in_body(c: Configuration, base: usize, n: usize, used: usize, body: usize) -> Configuration
    ensures { result ≡ in_body c base n used body }
{
    Configuration {
        entries: base.min(4120) + n.min(4120),
        used,
        place: body,
        ..c
    }
}

pub fn call(
    code: &[u16; 24582],
    heap: &mut [u16; 65535],
    frame: &mut [u16; 12360],
    base: usize,
    c: Configuration,
) -> Result<Configuration, Failure>
    ensures { moved result heap.new frame.new ≡ called_to code.now base c heap.old frame.old }
{
    let l = link_at(code, c.place);
    let n = usize::from(l.first);
    let so_far = Argued {
        entries: c.entries,
        used: c.used,
        nodes: kept_nodes(frame, base, c.neqs),
    };
    let i = c.place.min(4097) + 4;
    let a = arguments(code, heap, frame, base, so_far, i, n).ok_or(Failure::Over)?;
    entry::move_entries(frame, c.entries, n, base);
    Ok(in_body(c, base, n, a.used, usize::from(l.second)))
}
