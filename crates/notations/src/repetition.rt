// A repetition `<17*A>` in a line.
ghost use Rattle.std.specs.Prelude.{◌≡◌, ◌+◌, min, length};

// The place behind the `>` that stands at `end`, and no further than the end of the line.
pub fn behind(line: &[u8], end: usize) -> usize
    ensures { result ≡ min (end + 1) (length line.now) }
{
    if end < line.len() {
        return end + 1;
    }
    line.len()
}
