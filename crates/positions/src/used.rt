// What is used of the heap: whether that is much, and another number of it in a configuration.
ghost use Rattle.std.specs.Prelude.{◌≡◌};
ghost use Rattle.positions.specs.Twins.Used.{is_full, is_tight, with_used};

use heap::configuration::Configuration;

// A transition or a meeting writes less than the 24,576 cells that are then free.
pub fn is_full(used: usize) -> bool
    ensures { result ≡ is_full used }
{
    40959 < used
}

// Whether the heap is full, or much has been written since the latest configuration was saved, of which at most 4,096 cells are in use.
pub fn is_tight(used: usize, floor: usize) -> bool
    ensures { result ≡ is_tight used floor }
{
    is_full(used) || floor.min(65535) + 8192 < used
}

pub fn with_used(c: Configuration, used: usize) -> Configuration
    ensures { result ≡ with_used c used }
{
    Configuration { used, ..c }
}
