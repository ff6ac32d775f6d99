// What `sample_line` answers told by its number and values.
ghost use Rattle.std.specs.Prelude.{◌≡◌, [], ◌∷◌};
ghost use Rattle.telling.specs.Numbers.{sample_number, said_after};

use crate::numbers::write_numbers;
use refusals::letters::SHORT;

fn sample_number(short: bool) -> usize
    ensures { result ≡ sample_number short }
{
    if short {
        return SHORT;
    }
    0
}

// 20 where the storage for a sample is short, else 0; in `said` the cells of the inputs and those of the output.
pub fn tell_sample(short: bool, ins: usize, out: usize, said: &mut [usize]) -> usize
    ensures { (result ≡ sample_number short) × (said.new ≡ said_after (sample_number short) (ins ∷ out ∷ []) said.old) }
{
    let number = sample_number(short);
    write_numbers(number, &[ins, out], said);
    number
}
