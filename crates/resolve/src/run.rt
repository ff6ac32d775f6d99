// The forward runner over two texts (01, "Running forwards"): "The runner reads a whole job text, checks it, and uses only the inputs and
// N." What it answers and leaves is defined in specs/RunAnswer.antt.
ghost use Rattle.std.specs.Prelude.{◌≡◌};
ghost use Rattle.language.specs.Source.{SProg, SJob, prog};
ghost use Rattle.language.specs.JobCheck.{runner};
ghost use Rattle.language.specs.Reading.{accepted, reading};
ghost use Rattle.semantics.specs.Answer.{inputs};
ghost use Rattle.resolve.specs.RunAnswer.{run_left};
ghost use Rattle.resolve.specs.RunDemand.{Answered, StoredRun};
ghost use Rattle.resolve.specs.Twins.RunCells.{RunOut, run_texts};

use forward::inputs::run_inputs;
use lent::clear::clear;
use lent::room;
use lent::room::short_for_value;
use linking::program::link_program;
use reading::stored::Stored;
use refusals::refusal::Refused;
use run_answers::run::Answer;

// The least lengths of the lent storages, in cells.
pub const WORK: usize = room::WORK;

pub const ANSWER: usize = room::VALUE;

// The two texts, into storage that is long enough.
fn run_texts(program: &[u8], job: &[u8], work: &mut [u16], answer: &mut [u16]) -> Answer
    ensures { RunOut result work.new answer.new (run_texts program.now job.now work.old answer.old) }
{
    let mut texts = Stored::EMPTY;
    let mut code: [u16; 24582] = [0; 24582];
    let both = texts.read(true, program, job, work)?;
    link_program(
        &texts.marks,
        &texts.nums,
        &texts.ends,
        &texts.heads,
        both.count,
        &mut code,
    );
    clear(answer);
    Ok(run_inputs(
        &texts.marks,
        &texts.heads,
        &texts.jmarks,
        &texts.jnums,
        both.parts,
        &code,
        both.numerals.steps,
        answer,
    ))
}

// Evaluates main on the job's inputs by figure 4 of 001, in at most the job's steps. The value's cells stand in `answer`, zeros behind
// them; `work` is zero after the call. 20 comes before all else and touches nothing. Demand 2 holds of the value read back from `answer`.
pub fn run(program: &[u8], job: &[u8], work: &mut [u16], answer: &mut [u16]) -> Answer
    ensures { (let w = run_left program.now job.now work.old answer.old in (result ≡ w.answer) × (work.new ≡ w.work) × (answer.new ≡ w.cells)) × ((s : SProg) (t : SJob) → reading runner program.now job.now ≡ accepted s t → Answered result → StoredRun (prog s) t.steps.num (inputs t) result answer.new) }
{
    if short_for_value(work, answer) {
        return Err(Refused::Short);
    }
    run_texts(program, job, work, answer)
}
