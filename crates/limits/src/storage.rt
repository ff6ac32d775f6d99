// What a reader leaves in the five storages that it is lent.
use lent::read::{Read, Unread};

// What stands in storage before it is lent: a reader must not take it for anything.
pub const FILLED: u16 = 43981;

// Whether each cell is x.
fn all(s: &[u16], x: u16) -> bool {
    s.iter().all(|cell| *cell == x)
}

fn all_five(
    x: u16,
    marks: &[u16],
    nums: &[u16],
    ats: &[u16],
    symbols: &[u16],
    names: &[u16],
) -> bool {
    all(marks, x) && all(nums, x) && all(ats, x) && all(symbols, x) && all(names, x)
}

// Whether the storages are left as 01, "From the state", has it: "20 ... nothing touched"; "Working storage is zero after each call", which is `names`, and
// after a refusal all of them.
pub fn left_sound(
    read: &Result<Read, Unread>,
    marks: &[u16],
    nums: &[u16],
    ats: &[u16],
    symbols: &[u16],
    names: &[u16],
) -> bool {
    match read {
        Err(Unread::Short) => all_five(FILLED, marks, nums, ats, symbols, names),
        Err(Unread::Refused(_)) => all_five(0, marks, nums, ats, symbols, names),
        Ok(_) => all(names, 0),
    }
}
