// An answer's numbers in lent storage, and back from there (specs/Numbers.antt).
ghost use Rattle.std.specs.Prelude.{◌≡◌, get_or};
ghost use Rattle.telling.specs.Numbers.{said_after};

use refusals::letters::SHORT;

// The number at i; 0 past the end.
pub(crate) fn number_at(said: &[usize], i: usize) -> usize
    ensures { result ≡ get_or said.now i 0 }
{
    said.get(i).copied().unwrap_or(0)
}

// As many of the numbers as there is room for, zeros behind them; 20 touches nothing.
pub(crate) fn write_numbers(number: usize, numbers: &[usize], said: &mut [usize])
    ensures { said.new ≡ said_after number numbers.now said.old }
{
    if number == SHORT {
        return;
    }
    for i in 0..said.len() {
        said[i] = number_at(numbers, i);
    }
}
