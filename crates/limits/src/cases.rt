// Places in a text of lines.
ghost use Rattle.std.specs.Prelude.{◌≤◌, length};

// The first place from `from` on where the byte stands, or the text's length.
pub fn find(text: &[u8], from: usize, b: u8) -> usize
    requires { from ≤ length text.now }
    ensures { (from ≤ result) × (result ≤ length text.now) }
{
    for i in from..text.len() {
        if text[i] == b {
            return i;
        }
    }
    text.len()
}

// The first line from the one at `from` on that begins with the byte: its place, or one that no line begins at.
pub fn line_from(text: &[u8], from: usize, b: u8) -> usize
    ensures { from ≤ result }
{
    let mut i = from;
    while i < text.len() {
        if text[i] == b {
            return i;
        }
        i = find(text, i, b'\n') + 1;
    }
    i
}
