// Parts of storage, for any places.
ghost use Rattle.std.specs.Prelude.{◌≡◌, ◌+◌, ◌-◌, min, take, drop};

// The cells from `from` up to `to`, as far as there are any.
pub fn part(s: &[u16], from: usize, to: usize) -> &[u16]
    ensures { result.now ≡ take (to - from) (drop from s.now) }
{
    let end = to.min(s.len());
    if end <= from {
        return &[];
    }
    &s[from..end]
}

// The first n cells, as far as there are any.
pub fn front(s: &[u16], n: usize) -> &[u16]
    ensures { result.now ≡ take n s.now }
{
    part(s, 0, n)
}

// The cells from `from` on.
pub fn rest(s: &[u16], from: usize) -> &[u16]
    ensures { result.now ≡ drop from s.now }
{
    &s[from.min(s.len())..]
}

// n further, but not past `end`.
pub fn ahead(at: usize, n: usize, end: usize) -> usize
    ensures { result ≡ min (at + n) end }
{
    at.saturating_add(n).min(end)
}
