// A window on a text that is written byte by byte: the bytes before the window are passed over, those behind it are dropped. So a text of
// any length is printed through storage of any length.
ghost use Rattle.std.specs.Prelude.{◌≡◌, ◌∷◌, [], replicate, length};
ghost use Rattle.window.specs.Twins.Sink.{opening, sink, full, puts};

// `skip` bytes of the text are still to be passed over; `at` of the window are written.
#[derive(Clone, Copy)]
pub struct Place {
    skip: usize,
    at: usize,
}

#[tactic(auto, unfolding(crate::specs::Twins::Sink::puts, crate::specs::Twins::Sink::pushed))]
pub fn put_byte(out: &mut [u8], place: Place, byte: u8) -> Place
    ensures { sink result out.new ≡ puts (sink place out.old) (byte ∷ []) }
{
    let Place { skip, at } = place;
    if 0 < skip {
        return Place { skip: skip - 1, at };
    }
    if at < out.len() {
        out[at] = byte;
        return Place { skip, at: at + 1 };
    }
    place
}

pub fn put_text(out: &mut [u8], place: Place, text: &[u8]) -> Place
    ensures { sink result out.new ≡ puts (sink place out.old) text.now }
{
    let mut p = place;
    for &byte in text {
        p = put_byte(out, p, byte);
    }
    p
}

// The byte n times.
pub fn put_repeat(out: &mut [u8], place: Place, byte: u8, n: usize) -> Place
    ensures { sink result out.new ≡ puts (sink place out.old) (replicate n byte) }
{
    let mut p = place;
    for _ in 0..n {
        p = put_byte(out, p, byte);
    }
    p
}

// "zeros follow to the end, as they do after any other text or record that an entry writes"
pub fn clear(out: &mut [u8])
    ensures { out.new ≡ replicate (length out.old) 0 }
{
    out.fill(0);
}

// Whether all that follows is dropped: a text need not be made further then.
#[tactic(auto, unfolding(crate::specs::Twins::Sink::full))]
pub fn is_full(place: Place, size: usize) -> bool
    ensures { result ≡ full place size }
{
    place.skip == 0 && size <= place.at
}

// The window from the byte `from` of the text on.
pub fn opened(from: usize) -> Place
    ensures { result ≡ opening from }
{
    Place { skip: from, at: 0 }
}

pub fn written(place: Place) -> usize
    ensures { result ≡ place.at }
{
    place.at
}
