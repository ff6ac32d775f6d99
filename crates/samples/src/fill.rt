// The cells of a line's inputs and output with a new atom for each variable.
ghost use Rattle.std.specs.Prelude.{◌≡◌, ◌<◌};
ghost use Rattle.samples.specs.Twins.Filling.{is_variable, new_code, sampled_cells};

use sets::fill::rename;

// The code is that of `?eK` or of `?aK`.
fn is_variable(code: u16) -> bool
    ensures { result ≡ is_variable code }
{
    code % 4 == 2 || code % 4 == 3
}

// The code of the new atom number k: "none a symbol of program or job", whose numbers are below 1,024.
fn new_code(k: u16) -> u16
    requires { k < 4096 }
    ensures { result ≡ new_code k }
{
    4 * (1024 + k) + 1
}

// "giving every variable left in the line an atom of its own", "by first standing in inputs, then output": of the first n cells each variable becomes
// the new atom whose number is how many variables stood before it.
pub fn fill_sample(cells: &mut [u16; 4096], n: usize)
    ensures { cells.new ≡ sampled_cells n cells.old }
{
    let end = n.min(4096);
    let mut k: u16 = 0;
    for i in 0..end {
        let code = cells[i];
        if !is_variable(code) {
            continue;
        }
        rename(cells, end, code, new_code(k));
        k += 1;
    }
}
