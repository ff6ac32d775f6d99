// The limits of a text (01, "Texts").
ghost use Rattle.std.specs.Prelude.{◌≡◌, leb};

// "A program has at most 32,768 bytes"
pub fn program_bytes() -> usize
    ensures { result ≡ 32768 }
{
    32768
}

// "A job has at most 8,192 bytes"
pub fn job_bytes() -> usize
    ensures { result ≡ 8192 }
{
    8192
}

// "A text has at most 4,096 tokens": whether the token with this index is one more.
pub fn is_token_over(i: usize) -> bool
    ensures { result ≡ leb 4096 i }
{
    4096 <= i
}

// "both texts together 1,024 different symbols (Z)": whether the symbol with this place is one more.
pub fn is_symbol_over(place: u16) -> bool
    ensures { result ≡ leb 1024 place }
{
    1024 <= place
}

// "64 brackets open together": those in a definition's own.
pub fn brackets_inside() -> usize
    ensures { result ≡ 63 }
{
    63
}
