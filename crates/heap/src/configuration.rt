// A configuration by value: what is in use of each storage, and what stands in none.
ghost use Rattle.std.specs.Prelude.{◌≡◌};
ghost use Rattle.heap.specs.Twins.Moving.{grown_by, restricted_by};

use restrictions::failure::Failure;

// How many entries there are, of them inputs and wanted outputs; what is used of the heap; the non-equalities; the term's place; the counter.
#[derive(Clone, Copy)]
pub struct Configuration {
    pub inputs: usize,
    pub outputs: usize,
    pub entries: usize,
    pub used: usize,
    pub neqs: usize,
    pub place: usize,
    pub counter: u16,
}

// Which of a condition's two branches there are: "A branch that contradicts is no transition."
#[derive(Clone, Copy)]
pub struct Branches {
    pub yes: bool,
    pub no: bool,
}

// The configuration with what is used and the non-equalities as they are now.
pub fn grown(c: Configuration, neqs: usize, w: Option<usize>) -> Result<Configuration, Failure>
    ensures { result ≡ grown_by c neqs w }
{
    let used = w.ok_or(Failure::Over)?;
    Ok(Configuration { used, neqs, ..c })
}

// What is left of the non-equalities decides.
pub fn restricted(c: Configuration, r: Result<usize, Failure>) -> Result<Configuration, Failure>
    ensures { result ≡ restricted_by c r }
{
    let neqs = r?;
    Ok(Configuration { neqs, ..c })
}
