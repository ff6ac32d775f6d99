// A text scanned by index, for all that is cut out of it (specs/Twins/Cutting.antt).
ghost use Rattle.std.specs.Prelude.{◌≡◌, ℕ, Bool};
ghost use Rattle.words.specs.Twins.Cutting.{scan_at};

// The first byte from `from` on that does not pass the test, or the end.
pub(crate) fn scan<F: Fn(u8) -> bool>(text: &[u8], from: usize, passes: F) -> usize
    requires { F.IsAlwaysCallable passes }
    ensures { (f : ℕ → Bool) → ((b : ℕ) (r : Bool) → F.post passes b r → r ≡ f b) → result ≡ scan_at f text.now from }
{
    for i in from..text.len() {
        if !passes(text[i]) {
            return i;
        }
    }
    text.len().max(from)
}
