// Trees that stand one behind the other in the heap, as entries of the frame.
ghost use Rattle.std.specs.Prelude.{◌≡◌};
ghost use Rattle.heap.specs.Twins.Entries.{push_answer};
ghost use Rattle.initial.specs.Twins.Trees.{trees_entered};

use heap::entry::push_entry;
use sets::tree;

// An entry behind n for each tree that stands in the heap from `from` up to `to`: the entries there are then, and None where
// there is no room for them.
pub(crate) fn enter_trees(
    heap: &[u16; 65535],
    frame: &mut [u16; 12360],
    n: usize,
    from: usize,
    to: usize,
) -> Option<usize>
    ensures { push_answer result frame.new ≡ trees_entered n from to heap.now frame.old }
{
    let mut k = n;
    let mut i = from;
    while i < to {
        let end = tree::tree_end(heap, i);
        k = push_entry(frame, k, 0, i, end)?;
        i = end;
    }
    Some(k)
}
