// Storage set to nought.
ghost use Rattle.std.specs.Prelude.{◌≡◌};
ghost use Rattle.lent.specs.Storage.{zeros};

pub fn clear(s: &mut [u16])
    ensures { s.new ≡ zeros s.old }
{
    s.fill(0);
}

// The four storages that tokens stand in.
pub fn clear_tokens(marks: &mut [u16], nums: &mut [u16], ats: &mut [u16], symbols: &mut [u16])
    ensures { (marks.new ≡ zeros marks.old) × (nums.new ≡ zeros nums.old) × (ats.new ≡ zeros ats.old) × (symbols.new ≡ zeros symbols.old) }
{
    clear(marks);
    clear(nums);
    clear(ats);
    clear(symbols);
}
