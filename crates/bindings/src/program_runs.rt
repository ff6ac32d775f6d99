// A run of two texts, and its print.
ghost use Rattle.std.specs.Prelude.{◌≡◌, ◌-◌, min, length};
ghost use Rattle.language.specs.Source.{SProg, SJob, prog};
ghost use Rattle.language.specs.JobCheck.{runner};
ghost use Rattle.language.specs.Reading.{accepted, reading};
ghost use Rattle.semantics.specs.Answer.{inputs};
ghost use Rattle.listing.specs.Text.{run_text};
ghost use Rattle.resolve.specs.RunAnswer.{run_left};
ghost use Rattle.resolve.specs.RunDemand.{Answered, StoredRun};
ghost use Rattle.window.specs.Windows.{windowed};
ghost use Rattle.print.specs.Twins.RanText.{ran_text};
ghost use Rattle.telling.specs.Numbers.{said_after};
ghost use Rattle.run_answers.specs.RunNumbers.{number_of, said_of, answer_from};
ghost use Rattle.bindings.specs.Told.{RunTold};

use print::ran::print_run;
use resolve::run;
use telling::run::{answer_from, tell};

// `resolve::run`: the number of its answer (01, "From the input", "From the state"), and in `said` the letter, the offset, the steps and the length.
#[unsafe(no_mangle)]
pub extern "C" fn raugvite_run(
    program: &[u8],
    job: &[u8],
    work: &mut [u16],
    answer: &mut [u16],
    said: &mut [usize],
) -> usize
    ensures { (let w = run_left program.now job.now work.old answer.old in (result ≡ number_of w.answer) × (work.new ≡ w.work) × (answer.new ≡ w.cells) × (said.new ≡ said_after (number_of w.answer) (said_of w.answer) said.old)) × ((s : SProg) (t : SJob) → reading runner program.now job.now ≡ accepted s t → Answered (run_left program.now job.now work.old answer.old).answer → StoredRun (prog s) t.steps.num (inputs t) (run_left program.now job.now work.old answer.old).answer answer.new) }
{
    let a = run::run(program, job, work, answer);
    tell(a, said)
}

// `print::ran::print_run` of the answer with this number and what `said` holds beside it.
#[unsafe(no_mangle)]
pub extern "C" fn raugvite_print_run(
    program: &[u8],
    job: &[u8],
    number: usize,
    said: &[usize],
    cells: &[u16],
    from: usize,
    out: &mut [u8],
) -> usize
    ensures { (let text = ran_text program.now job.now cells.now (answer_from number said.now) in (result ≡ min (length out.old) (length text - from)) × (out.new ≡ windowed (length out.old) from text)) × (RunTold program.now job.now number said.now cells.now → ran_text program.now job.now cells.now (answer_from number said.now) ≡ run_text program.now job.now) }
{
    let a = answer_from(number, said);
    print_run(program, job, a, cells, from, out)
}

// The least lengths of the two storages, in cells.
#[unsafe(no_mangle)]
pub extern "C" fn raugvite_run_work() -> usize
    ensures { result ≡ 8194 }
{
    run::WORK
}

#[unsafe(no_mangle)]
pub extern "C" fn raugvite_run_answer() -> usize
    ensures { result ≡ 4096 }
{
    run::ANSWER
}
