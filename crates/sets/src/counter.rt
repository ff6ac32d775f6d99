// The path's counter of fresh numbers.
ghost use Rattle.std.specs.Prelude.{◌≡◌};
ghost use Rattle.sets.specs.Twins.Counting.{handed};

// The first number that has not been handed out. Not Copy: what `take` was given is gone, so that no number is handed out twice.
#[derive(Drop)]
pub struct Counter {
    pub next: u16,
}

// "three numbers ..: head, tail, atom", and the counter behind them
#[derive(Drop)]
pub struct Fresh {
    pub head: u16,
    pub tail: u16,
    pub atom: u16,
    pub next: Counter,
}

impl Counter {
    // The last number from which three can be handed out: 4 * 16,383 + 3 is the last code.
    pub const LAST: u16 = 16381;

    // None: a variable of the next number would have no code. No walk of at most 1,000 transitions (01, "The walk") comes near it.
    pub fn take(self) -> Option<Fresh>
        ensures { result ≡ handed self.next }
    {
        let k = self.next;
        if Counter::LAST < k {
            return None;
        }
        Some(Fresh {
            head: k,
            tail: k + 1,
            atom: k + 2,
            next: Counter { next: k + 3 },
        })
    }
}
