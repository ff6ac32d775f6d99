// "Fresh numbers start one above the largest K of either kind in the job."
ghost use Rattle.std.specs.Prelude.{◌≡◌, ◌≤◌, min};
ghost use Rattle.runs.specs.Twins.Runs.{run};
ghost use Rattle.layout.specs.Twins.Fresh.{number_cell, largest_run, first_fresh_cells};

use runs::run;

// The number of a variable, by its code; 0 for what is none.
fn number_of(x: u16) -> u16
    ensures { (result ≡ number_cell x) × (result ≤ 16383) }
{
    if x % 4 < 2 {
        return 0;
    }
    x / 4
}

// The largest number of a variable among the first n cells.
fn largest(heap: &[u16; 65535], n: usize) -> u16
    ensures { (result ≡ largest_run (run 0 (min n 65535) heap.now)) × (result ≤ 16383) }
{
    let count = n.min(run::SIZE);
    let mut most: u16 = 0;
    for i in 0..count {
        most = most.max(number_of(heap[i]));
    }
    most
}

// The job's trees and the sides of its non-equalities are the first n cells.
pub fn first_fresh(heap: &[u16; 65535], n: usize) -> u16
    ensures { result ≡ first_fresh_cells n heap.now }
{
    largest(heap, n) + 1
}
