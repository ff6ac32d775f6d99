// A contraction of entries: an entry in whose range the variable stands gets a new range, its filled copy. A range in which no variable stands is passed by.
ghost use Rattle.std.specs.Prelude.{◌≡◌, ◌<◌};
ghost use Rattle.sets.specs.Twins.Fill.{fill_answer};
ghost use Rattle.heap.specs.Twins.Contracted.{entered_frame, leaf_entered, stores, contracted_entry, contracted_entries};

use crate::entry;
use cells::cell;
use codes::known::{closed, known_after};
use codes::outcome::Replaced;
use runs::run;

// The entry i by what became of its range: its new range where it was filled. What is used then.
fn entered(
    frame: &mut [u16; 12360],
    i: usize,
    known: u16,
    size: usize,
    used: usize,
    w: Replaced,
) -> Option<usize>
    requires { i < 4120 }
    ensures { fill_answer result frame.new ≡ entered_frame i known size used w frame.old }
{
    match w {
        Replaced::Closed => {
            frame[3 * i] = closed(known);
            Some(used)
        }
        Replaced::Open => Some(used),
        Replaced::Done(k) => {
            entry::put_entry(frame, i, known_after(known, size), used, k);
            Some(k)
        }
        Replaced::Over => None,
    }
}

// The entry i, whose value is a leaf: where it is x it gets the range that stands for x.
fn contract_leaf(frame: &mut [u16; 12360], i: usize, code: u16, x: u16, vfrom: usize, vto: usize)
    requires { i < 4120 }
    ensures { frame.new ≡ leaf_entered i code x vfrom vto frame.old }
{
    if code == x {
        entry::put_entry(frame, i, 0, vfrom, vto);
    }
}

// The entry i with the run from `vfrom` up to `vto` in the place of each x. What is used then.
pub(crate) fn contract_entry(
    heap: &mut [u16; 65535],
    frame: &mut [u16; 12360],
    i: usize,
    x: u16,
    vfrom: usize,
    vto: usize,
    used: usize,
) -> Option<usize>
    requires { i < 4120 }
    ensures { stores result heap.new frame.new ≡ contracted_entry i x vfrom vto used heap.old frame.old }
{
    let known = frame[3 * i];
    if known % 2 == 1 {
        return Some(used);
    }
    let from = usize::from(frame[3 * i + 1]);
    let to = usize::from(frame[3 * i + 2]);
    if to.saturating_sub(from) == 1 {
        let code = cell::cell(heap, from);
        contract_leaf(frame, i, code, x, vfrom, vto);
        return Some(used);
    }
    let w = run::replace(heap, from, to, x, vfrom, vto, used);
    entered(frame, i, known, vto.saturating_sub(vfrom), used, w)
}

// The same for the entries from `first` on, before `last`.
pub fn contract_entries(
    heap: &mut [u16; 65535],
    frame: &mut [u16; 12360],
    first: usize,
    last: usize,
    x: u16,
    vfrom: usize,
    vto: usize,
    used: usize,
) -> Option<usize>
    ensures { stores result heap.new frame.new ≡ contracted_entries first last x vfrom vto used heap.old frame.old }
{
    let end = last.min(entry::ENTRIES);
    let mut now = used;
    for i in first..end {
        now = contract_entry(heap, frame, i, x, vfrom, vto, now)?;
    }
    Some(now)
}
