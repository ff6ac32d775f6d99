// The listing of two texts, its print, and both at once.
ghost use Rattle.std.specs.Prelude.{◌≡◌, false, [], ◌∷◌, ◌++◌, ◌-◌, min, length};
ghost use Rattle.language.specs.Source.{SProg, SJob, prog, class};
ghost use Rattle.language.specs.JobCheck.{lister};
ghost use Rattle.language.specs.Reading.{accepted, reading};
ghost use Rattle.semantics.specs.Answer.{limits};
ghost use Rattle.listing.specs.Text.{list_text};
ghost use Rattle.resolve.specs.ListAnswer.{too_short, list_left};
ghost use Rattle.resolve.specs.ListDemand.{Answered, StoredListing};
ghost use Rattle.window.specs.Windows.{windowed};
ghost use Rattle.print.specs.Twins.ListedText.{listed_text};
ghost use Rattle.telling.specs.Numbers.{said_after};
ghost use Rattle.answers.specs.ListNumbers.{number_of, said_of, answer_from};
ghost use Rattle.bindings.specs.Told.{ListTold};

use print::first::list_first;
use print::list::print_list;
use resolve::list;
use telling::list::{answer_from, tell, tell_printed};

// `resolve::list`: the number of its answer (01, "From the input", "From the state"), and in `said` the letter, the offset, 1 for cut, the lines and the transitions.
#[unsafe(no_mangle)]
pub extern "C" fn raugvite_list(
    program: &[u8],
    job: &[u8],
    work: &mut [u16],
    answer: &mut [u16],
    said: &mut [usize],
) -> usize
    ensures { (let w = list_left program.now job.now work.old answer.old in (result ≡ number_of w.answer) × (work.new ≡ w.work) × (answer.new ≡ w.cells) × (said.new ≡ said_after (number_of w.answer) (said_of w.answer) said.old)) × ((s : SProg) (t : SJob) → reading lister program.now job.now ≡ accepted s t → Answered (list_left program.now job.now work.old answer.old).answer → StoredListing (prog s) (class t) t.steps.num (limits t) (list_left program.now job.now work.old answer.old).answer answer.new) }
{
    let a = list::list(program, job, work, answer);
    tell(a, said)
}

// `print::first::list_first`: the same, and as the sixth number of `said` how many bytes of `out` are text.
#[unsafe(no_mangle)]
pub extern "C" fn raugvite_list_print(
    program: &[u8],
    job: &[u8],
    work: &mut [u16],
    answer: &mut [u16],
    said: &mut [usize],
    out: &mut [u8],
) -> usize
    ensures { (let w = list_left program.now job.now work.old answer.old in let text = listed_text program.now job.now w.cells w.answer in (result ≡ number_of w.answer) × (work.new ≡ w.work) × (answer.new ≡ w.cells) × (said.new ≡ said_after (number_of w.answer) (said_of w.answer ++ (min (length out.old) (length text) ∷ [])) said.old) × (out.new ≡ windowed (length out.old) 0 text)) × (too_short work.old answer.old ≡ false → (let w = list_left program.now job.now work.old answer.old in listed_text program.now job.now w.cells w.answer ≡ list_text program.now job.now)) × ((s : SProg) (t : SJob) → reading lister program.now job.now ≡ accepted s t → Answered (list_left program.now job.now work.old answer.old).answer → StoredListing (prog s) (class t) t.steps.num (limits t) (list_left program.now job.now work.old answer.old).answer answer.new) }
{
    let listed = list_first(program, job, work, answer, out);
    tell_printed(listed.answer, listed.bytes, said)
}

// `print::list::print_list` of the answer with this number and what `said` holds beside it.
#[unsafe(no_mangle)]
pub extern "C" fn raugvite_print_list(
    program: &[u8],
    job: &[u8],
    number: usize,
    said: &[usize],
    cells: &[u16],
    from: usize,
    out: &mut [u8],
) -> usize
    ensures { (let text = listed_text program.now job.now cells.now (answer_from number said.now) in (result ≡ min (length out.old) (length text - from)) × (out.new ≡ windowed (length out.old) from text)) × (ListTold program.now job.now number said.now cells.now → listed_text program.now job.now cells.now (answer_from number said.now) ≡ list_text program.now job.now) }
{
    let a = answer_from(number, said);
    print_list(program, job, a, cells, from, out)
}

// The least lengths of the two storages, in cells.
#[unsafe(no_mangle)]
pub extern "C" fn raugvite_list_work() -> usize
    ensures { result ≡ 8194 }
{
    list::WORK
}

#[unsafe(no_mangle)]
pub extern "C" fn raugvite_list_answer() -> usize
    ensures { result ≡ 17408 }
{
    list::ANSWER
}
