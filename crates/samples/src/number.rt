// The number of a name that is Q and a number: which numbers the symbols of the texts leave free.
ghost use Rattle.std.specs.Prelude.{◌≡◌};
ghost use Rattle.samples.specs.Twins.Numbers.{counting, numeral_of, number_of};

use cells::cell::byte;
use cells::part::part;
use words::fit::value;
use words::keys::PLAIN;
use words::kinds::fit_of;

// "a number from 1 up": 4,096 new atoms and 1,024 symbols need no number above 5,120.
fn counted(n: u16) -> u16
    ensures { result ≡ counting n }
{
    if n <= 5120 {
        return n;
    }
    0
}

// The value of a numeral of at most four digits, without a leading nought; 0 of any other word, and of a larger one.
#[tactic(auto, unfolding(crate::specs::Twins::Numbers::numeral_of))]
fn numeral_of(word: &[u8]) -> u16
    ensures { result ≡ numeral_of word.now }
{
    if 4 < word.len() {
        return 0;
    }
    if fit_of(true, PLAIN, word) == 0 {
        return counted(value(word, 0));
    }
    0
}

// The number of a symbol's word, `'Q` and a number; 0 of any other.
pub fn number_of(word: &[u8]) -> u16
    ensures { result ≡ number_of word.now }
{
    if byte(word, 1) == b'Q' {
        return numeral_of(part(word, 2, word.len()));
    }
    0
}
