// Entries of the frame, three cells each: what is known of its value, and the range of it. What is known is 2 n + c: n is how many cells the head of a pair
// has, so that where it ends need not be looked for; c is 1 where no variable stands in the value, so that a contraction passes it by. 0: it isn't known.
ghost use Rattle.std.specs.Prelude.{◌≡◌, min, ◌+◌, ◌<◌, ◌≤◌};
ghost use Rattle.heap.specs.Twins.Entries.{entry, push_answer, pushed, moved_down, moved_entries, nodes_from};

use cells::cell;

// The entries that the frame has room for.
pub const ENTRIES: usize = 4120;

// The entry i.
pub(crate) fn put_entry(frame: &mut [u16; 12360], i: usize, known: u16, from: usize, to: usize)
    requires { i < 4120 }
    ensures { frame.new ≡ entry i known from to frame.old }
{
    frame[3 * i] = known;
    frame[3 * i + 1] = cell::narrow(from);
    frame[3 * i + 2] = cell::narrow(to);
}

// One entry more, behind n: the entries there are then, and None where there is no room for one more.
pub fn push_entry(
    frame: &mut [u16; 12360],
    n: usize,
    known: u16,
    from: usize,
    to: usize,
) -> Option<usize>
    ensures { push_answer result frame.new ≡ pushed n known from to frame.old }
{
    if ENTRIES <= n {
        return None;
    }
    put_entry(frame, n, known, from, to);
    Some(n + 1)
}

// The n entries from `from` on, moved down to `to`: a call's new entries, over the old ones. A loop and not `copy_within`, which goes cell by cell: with it
// calls of 16 arguments take 1.2 times as long (bench/adverse/params).
pub(crate) fn move_down(frame: &mut [u16; 12360], from: usize, n: usize, to: usize)
    requires { (to ≤ from) × (from + n ≤ 4120) }
    ensures { frame.new ≡ moved_down from n to frame.old }
{
    let a = 3 * from;
    let b = 3 * to;
    let size = 3 * n;
    for i in 0..size {
        frame[b + i] = frame[a + i];
    }
}

// The n entries from `from` on again at `to`, which lies before them; nothing where they are not all there.
pub fn move_entries(frame: &mut [u16; 12360], from: usize, n: usize, to: usize)
    ensures { frame.new ≡ moved_entries from n to frame.old }
{
    if to <= from && from <= ENTRIES && n <= ENTRIES - from {
        move_down(frame, from, n, to);
    }
}

// The nodes of the first n entries. Summed in 32 bits, of which four go into what the compiler adds at once.
pub fn nodes(frame: &[u16; 12360], n: usize) -> usize
    ensures { result ≡ nodes_from (min n 4120) 0 frame.now }
{
    let end = n.min(ENTRIES);
    let mut sum: u32 = 0;
    for i in 0..end {
        sum += u32::from(frame[3 * i + 2].saturating_sub(frame[3 * i + 1]));
    }
    sum as usize
}
