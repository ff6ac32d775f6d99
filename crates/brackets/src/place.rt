// How far a line is read, and the next bracket in it.
ghost use Rattle.std.specs.Prelude.{◌≡◌, ◌-◌};
ghost use Rattle.brackets.specs.Twins.Passing.{passed};

// The next byte, the cells of the run that is being written, the symbols met.
#[derive(Clone, Copy)]
pub struct Place {
    pub at: usize,
    pub cells: usize,
    pub symbols: usize,
}

// The offset of the token at fault.
#[derive(Clone, Copy)]
pub struct Broken {
    pub at: usize,
}

// Behind the bracket that must stand at this token, in a line that is read up to p.
#[tactic(auto, unfolding(crate::specs::Twins::Passing::passed))]
pub fn pass(text: &[u8], p: Place, at: usize, bracket: u8) -> Result<Place, Broken>
    ensures { result ≡ passed text.now p at bracket }
{
    if at < text.len() {
        if text[at] == bracket {
            return Ok(Place { at: at + 1, ..p });
        }
    }
    Err(Broken { at })
}

// How many more brackets may be opened inside a bracket, where `room` may be with it.
pub fn inside(room: usize) -> usize
    ensures { result ≡ room - 1 }
{
    room.saturating_sub(1)
}
