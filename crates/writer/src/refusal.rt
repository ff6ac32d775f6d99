// The text of a refusal.
ghost use Rattle.std.specs.Prelude.{◌≡◌, ◌-◌, min, length};
ghost use Rattle.listing.specs.Text.{print_refusal};
ghost use Rattle.window.specs.Windows.{windowed};
ghost use Rattle.window.specs.Twins.Sink.{sink, puts};

use crate::line::put_numbers;
use window::sink;
use window::sink::Place;

// "`refused p 3 17` (p program, j job, number, offset)"
fn put_refusal(out: &mut [u8], place: Place, letter: u8, number: usize, offset: usize) -> Place
    ensures { sink result out.new ≡ puts (sink place out.old) (print_refusal letter number offset) }
{
    let p = sink::put_text(out, place, b"refused ");
    let l = sink::put_byte(out, p, letter);
    let b = sink::put_byte(out, l, b' ');
    let n = put_numbers(out, b, number, offset);
    sink::put_byte(out, n, b'\n')
}

// The bytes of the line from the byte `from` on, as many as `out` has room for, then zeros; how many they are. "one that falls on neither
// text prints `-` for the letter and offset 0"
pub fn print_refusal(letter: u8, number: usize, offset: usize, from: usize, out: &mut [u8]) -> usize
    ensures { let text = print_refusal letter number offset in (result ≡ min (length out.old) (length text - from)) × (out.new ≡ windowed (length out.old) from text) }
{
    sink::clear(out);
    let start = sink::opened(from);
    let p = put_refusal(out, start, letter, number, offset);
    sink::written(p)
}
