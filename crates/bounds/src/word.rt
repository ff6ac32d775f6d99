// The limits of one word (01, "Texts").
ghost use Rattle.std.specs.Prelude.{◌≡◌, ◌&&◌, leb};

// "F, NAME and Z have 1 to 16 letters or digits"; "4 a name over 16": so many bytes.
pub fn is_name_length(n: usize) -> bool
    ensures { result ≡ leb n 16 }
{
    n <= 16
}

// "at most 7 digits"; "4 a numeral over 7 digits"
pub fn is_numeral_length(n: usize) -> bool
    ensures { result ≡ leb n 7 }
{
    n <= 7
}

// "K is 1 to 999": its digits.
pub fn is_number_length(n: usize) -> bool
    ensures { result ≡ leb n 3 }
{
    n <= 3
}

// "K is 1 to 999"; "4 K outside 1 to 999"
pub fn is_number(v: u16) -> bool
    ensures { result ≡ (leb 1 v && leb v 999) }
{
    1 <= v && v <= 999
}
