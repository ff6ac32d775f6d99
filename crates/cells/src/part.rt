// A part of a text, for any places.
ghost use Rattle.std.specs.Prelude.{◌≡◌, ◌-◌, take, drop};

// The bytes from `from` up to `to`, as far as there are any.
pub fn part(text: &[u8], from: usize, to: usize) -> &[u8]
    ensures { result.now ≡ take (to - from) (drop from text.now) }
{
    if text.len() <= from {
        return &text[..0];
    }
    if to <= from {
        return &text[..0];
    }
    if text.len() < to {
        return &text[from..];
    }
    &text[from..to]
}
