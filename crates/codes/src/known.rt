// What is known of a value: an odd number where no variable stands in it.
ghost use Rattle.std.specs.Prelude.{◌≡◌};
ghost use Rattle.codes.specs.Twins.Knowing.{known_after, closed_as};

// What is known of a value in which a variable was replaced by a tree of `size` cells: a tree of one cell keeps every length.
pub fn known_after(known: u16, size: usize) -> u16
    ensures { result ≡ known_after known size }
{
    if size == 1 { known } else { 0 }
}

// What is known of a value in which no variable stands.
pub fn closed(k: u16) -> u16
    ensures { result ≡ closed_as k }
{
    if k % 2 == 1 { k } else { k + 1 }
}
