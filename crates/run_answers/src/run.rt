// What a run of two texts answers, and its number and values.
ghost use Rattle.std.specs.Prelude.{◌≡◌};
ghost use Rattle.run_answers.specs.RunNumbers.{number_of, steps_of, length_of};

use refusals::refusal::Refused;

// What the run of accepted texts comes to: its steps and how many cells its value has; 21; "not within N".
#[derive(Clone, Copy)]
pub enum Ran {
    Value { steps: usize, length: usize },
    Over,
    NotWithin,
}

// A run; the refusal of a text (1 to 13) with its offset; 20.
pub type Answer = Result<Ran, Refused>;

// The number (01, "From the input", "From the state"): 1 to 13 of a refused text, 20, 21; a value and "not within N" have none.
pub fn number_of(a: Answer) -> usize
    ensures { result ≡ number_of a }
{
    match a {
        Ok(Ran::Value { .. }) => 0,
        Ok(Ran::Over) => 21,
        Ok(Ran::NotWithin) => 0,
        Err(refused) => refused.number(),
    }
}

// The run's steps.
pub fn steps_of(a: Answer) -> usize
    ensures { result ≡ steps_of a }
{
    match a {
        Ok(Ran::Value { steps, .. }) => steps,
        _ => 0,
    }
}

// How many cells the value has.
pub fn length_of(a: Answer) -> usize
    ensures { result ≡ length_of a }
{
    match a {
        Ok(Ran::Value { length, .. }) => length,
        _ => 0,
    }
}
