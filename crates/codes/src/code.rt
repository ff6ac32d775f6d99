// One cell: whether it is x, whether it is a variable, and what stands there when x becomes y.
ghost use Rattle.std.specs.Prelude.{◌≡◌};
ghost use Rattle.codes.specs.Twins.Codes.{met_of, variable_met, one_if, renamed_cell};

// 1 once x was met.
pub fn met(n: u16, code: u16, x: u16) -> u16
    ensures { result ≡ met_of n code x }
{
    if code == x { 1 } else { n }
}

// 1 once a variable was met.
pub fn met_variable(n: u16, code: u16) -> u16
    ensures { result ≡ variable_met n code }
{
    if code % 4 < 2 { n } else { 1 }
}

// What a count of x grows by at the cell.
pub fn one_if(code: u16, x: u16) -> u16
    ensures { result ≡ one_if code x }
{
    u16::from(code == x)
}

// The cell with y in the place of x.
pub fn renamed(code: u16, x: u16, y: u16) -> u16
    ensures { result ≡ renamed_cell code x y }
{
    if code == x { y } else { code }
}
