// "21 over 4,096 nodes: .. after a transition".
ghost use Rattle.std.specs.Prelude.{◌≡◌};
ghost use Rattle.values.specs.Twins.Sizes.{kept_nodes, sized_as};

use heap::configuration::Configuration;
use heap::entry;
use restrictions::failure::Failure;

// The nodes of the first n entries, and "2 for each non-equality".
pub fn kept_nodes(frame: &[u16; 12360], n: usize, neqs: usize) -> usize
    ensures { result ≡ kept_nodes n neqs frame.now }
{
    entry::nodes(frame, n).min(4097) + 2 * neqs.min(4097)
}

// The configuration, where it is not over.
pub fn sized(frame: &[u16; 12360], c: Configuration) -> Result<Configuration, Failure>
    ensures { result ≡ sized_as c frame.now }
{
    if 4096 < kept_nodes(frame, c.entries, c.neqs) {
        return Err(Failure::Over);
    }
    Ok(c)
}
