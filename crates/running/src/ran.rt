// What is decided by value of what a run comes to.
ghost use Rattle.std.specs.Prelude.{◌≡◌};
ghost use Rattle.running.specs.Twins.Answers.{ran_answer, ran_by, settled_ran};

use lent::clear::clear;
use run_answers::run::Ran;

// An end, so many steps from the start, by how many cells of its output were put; None: they were over.
pub fn ran_by(steps: usize, put: Option<usize>) -> Ran
    ensures { result ≡ ran_by steps put }
{
    match put {
        Some(length) => Ran::Value { steps, length },
        None => Ran::Over,
    }
}

// "It stops only with 21 or `not within N`, and then its answer storage is zero": an output that was over has been written in part.
pub fn settle(ran: Ran, answer: &mut [u16]) -> Ran
    ensures { ran_answer result answer.new ≡ settled_ran ran answer.old }
{
    if let Ran::Over = ran {
        clear(answer);
    }
    ran
}
