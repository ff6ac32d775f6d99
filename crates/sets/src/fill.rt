// A variable renamed in place.
ghost use Rattle.std.specs.Prelude.{◌≡◌};
ghost use Rattle.sets.specs.Twins.Fill.{renamed};

// Each x among the first n cells becomes y, in its place.
pub fn rename(s: &mut [u16], n: usize, x: u16, y: u16)
    ensures { s.new ≡ renamed n x y s.old }
{
    let end = n.min(s.len());
    for i in 0..end {
        let code = s[i];
        s[i] = if code == x { y } else { code };
    }
}
