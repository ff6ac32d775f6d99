// Cells and bytes by index, the smaller of two numbers, and numbers into cells and back.
ghost use Rattle.std.specs.Prelude.{◌≡◌, min, ◌-◌, ◌%◌, ◌≤◌, get_or, set};

// The smaller of two numbers.
pub fn least(a: usize, b: usize) -> usize
    ensures { result ≡ min a b }
{
    a.min(b)
}

// The difference of two numbers, and 0 below it.
pub fn less(a: usize, b: usize) -> usize
    ensures { result ≡ a - b }
{
    a.saturating_sub(b)
}

// A number in a cell: the largest that a cell holds, for what is larger.
pub fn narrow(x: usize) -> u16
    ensures { result ≡ min x 65535 }
{
    x.min(65535) as u16
}

// The low part of a number, which a cell holds.
pub fn low(x: usize) -> u16
    ensures { result ≡ x % 65536 }
{
    (x % 65536) as u16
}

// A number from a cell.
pub fn wide(x: u16) -> usize
    ensures { (result ≡ x) × (result ≤ 65535) }
{
    usize::from(x)
}

// The cell at a place, and 0 past the end.
pub fn cell(s: &[u16], at: usize) -> u16
    ensures { result ≡ get_or s.now at 0 }
{
    s.get(at).copied().unwrap_or(0)
}

// The byte at a place, and 0 past the end.
pub fn byte(text: &[u8], at: usize) -> u8
    ensures { result ≡ get_or text.now at 0 }
{
    text.get(at).copied().unwrap_or(0)
}

// A store, and nothing past the end.
pub fn put(s: &mut [u16], at: usize, x: u16)
    ensures { s.new ≡ set s.old at x }
{
    if at < s.len() {
        s[at] = x;
    }
}
