// What became of a run in which x was to be replaced.
ghost use Rattle.std.specs.Prelude.{◌≡◌};
ghost use Rattle.codes.specs.Twins.Outcomes.{unmoved};

// Closed: no variable stands in it. Open: x does not, another may. Done: it stands filled behind what was used, and this is used now. Over: there is no room
// for it.
#[derive(Drop)]
pub enum Replaced {
    Closed,
    Open,
    Done(usize),
    Over,
}

// Of a run that has no x.
pub fn without(variables: bool) -> Replaced
    ensures { result ≡ unmoved variables }
{
    if variables {
        Replaced::Open
    } else {
        Replaced::Closed
    }
}
