// Where the entries of the names in reach begin, behind those of the inputs and the wanted outputs, and how many they are.
ghost use Rattle.std.specs.Prelude.{◌≡◌};
ghost use Rattle.values.specs.Twins.Names.{names_from, names_in};

use heap::configuration::Configuration;

pub fn names_from(c: Configuration) -> usize
    ensures { result ≡ names_from c }
{
    c.inputs.min(4120) + c.outputs.min(4120)
}

// How many names are in reach: those that a `cons?` binds come behind them.
pub fn names_in(c: Configuration) -> usize
    ensures { result ≡ names_in c }
{
    c.entries.saturating_sub(names_from(c))
}
