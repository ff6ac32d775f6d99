// The limits of a job's three numbers (01, "Texts"): "N is 0 to 1,000, W 0 to 1,000,000, T 0 to 256".
ghost use Rattle.std.specs.Prelude.{◌≡◌, leb};

pub fn is_steps(n: usize) -> bool
    ensures { result ≡ leb n 1000 }
{
    n <= 1000
}

pub fn is_walk(w: usize) -> bool
    ensures { result ≡ leb w 1000000 }
{
    w <= 1000000
}

pub fn is_table(t: usize) -> bool
    ensures { result ≡ leb t 256 }
{
    t <= 256
}
