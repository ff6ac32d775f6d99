// The limits of a program's parts (01, "Texts").
ghost use Rattle.std.specs.Prelude.{◌≡◌};

// "a program 64 definitions": those behind the first.
pub fn definitions_behind() -> usize
    ensures { result ≡ 63 }
{
    63
}

// "at most 16 parameters"
pub fn parameters_listed() -> usize
    ensures { result ≡ 16 }
{
    16
}
