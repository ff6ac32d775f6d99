// Numbers in base ten.
ghost use Rattle.std.specs.Prelude.{◌≡◌};
ghost use Rattle.listing.specs.Print.{digits};
ghost use Rattle.window.specs.Twins.Sink.{sink, puts};

use crate::sink::{Place, put_byte};

pub fn put_digits(out: &mut [u8], place: Place, n: usize) -> Place
    ensures { sink result out.new ≡ puts (sink place out.old) (digits n) }
{
    if n < 10 {
        return put_byte(out, place, (48 + n) as u8);
    }
    let p = put_digits(out, place, n / 10);
    put_byte(out, p, (48 + n % 10) as u8)
}
