// Room in the heap for a binding, which writes at most the nodes of a class.
ghost use Rattle.std.specs.Prelude.{◌≡◌};
ghost use Rattle.meetings.specs.Twins.Unifying.{roomed, room_made};

use crate::class;
use crate::class::Class;
use compaction::compact;

// So much may be used that twice the nodes of a class have room behind it.
pub(crate) const ROOMY: usize = 57343;

// Where more is used, the values of the class are put together from `floor` on. A range that was known before is none then.
pub(crate) fn make_room(heap: &mut [u16; 65535], frame: &mut [u16; 12360], c: Class) -> Class
    ensures { roomed result heap.new frame.new ≡ room_made c heap.old frame.old }
{
    if c.used <= ROOMY {
        return c;
    }
    let n = class::output_entry(c);
    let used = compact::compact(heap, frame, n + 1, c.floor, c.used);
    Class { used, ..c }
}
