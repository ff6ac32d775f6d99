// The path from the start to a node: a cell for each decision, the first one first. It has 1 where the true branch is taken, and 2
// more while the false branch beside it is untaken.
ghost use Rattle.std.specs.Prelude.{◌≡◌, Bool, min, ◌+◌, leb, get_or};
ghost use Rattle.trails.specs.Twins.TrailCells.{choice_cell, pushed, path_left, taken_at, pending_at, latest_pending, backtracked};

use cells::cell;

fn choice_cell(taken: bool, pending: bool) -> u16
    ensures { result ≡ choice_cell taken pending }
{
    match (taken, pending) {
        (true, true) => 3,
        (true, false) => 1,
        (false, true) => 2,
        (false, false) => 0,
    }
}

// A choice behind the first `depth` ones, and how many there are now.
pub fn push_choice(path: &mut [u16; 1000], depth: usize, taken: bool, pending: bool) -> usize
    ensures { path_left result path.new ≡ pushed depth taken pending path.old }
{
    cell::put(path, depth, choice_cell(taken, pending));
    depth.min(65535) + 1
}

// Whether the true branch is taken at decision i.
pub fn taken_at(path: &[u16; 1000], i: usize) -> bool
    ensures { result ≡ taken_at path.now i }
{
    cell::cell(path, i) % 2 == 1
}

// Whether the false branch beside decision i is untaken.
pub fn pending_at(path: &[u16; 1000], i: usize) -> bool
    ensures { result ≡ pending_at path.now i }
{
    2 <= cell::cell(path, i)
}

// How many choices there are up to the latest of the first `depth` whose false branch is untaken; 0 if there is none.
fn latest_pending(path: &[u16; 1000], depth: usize) -> usize
    ensures { result ≡ latest_pending path.now depth }
{
    for i in (0..depth).rev() {
        if pending_at(path, i) {
            return i + 1;
        }
    }
    0
}

// The latest choice whose false branch is untaken now takes it, and those after it are gone: how many are left, 0 if there is none.
pub fn backtrack(path: &mut [u16; 1000], depth: usize) -> usize
    ensures { path_left result path.new ≡ backtracked path.old depth }
{
    let d = latest_pending(path, depth);
    if d == 0 {
        return 0;
    }
    cell::put(path, d - 1, choice_cell(false, false));
    d
}
