// How many brackets are open.
ghost use Rattle.std.specs.Prelude.{◌≡◌, leb};

// Whether a bracket that closes where so many are open closes the outermost.
pub fn is_outermost(depth: usize) -> bool
    ensures { result ≡ leb depth 1 }
{
    depth <= 1
}
