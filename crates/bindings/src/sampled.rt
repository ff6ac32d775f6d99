// The sample of a line, and listings printed with samples (02, request 2).
ghost use Rattle.std.specs.Prelude.{◌≡◌, false, [], ◌∷◌, ◌++◌, ◌-◌, min, length};
ghost use Rattle.language.specs.Source.{SProg, SJob, prog, class};
ghost use Rattle.language.specs.JobCheck.{lister};
ghost use Rattle.language.specs.Reading.{accepted, reading};
ghost use Rattle.semantics.specs.Answer.{limits};
ghost use Rattle.listing.specs.Text.{sampled_text};
ghost use Rattle.resolve.specs.ListAnswer.{too_short, list_left};
ghost use Rattle.resolve.specs.ListDemand.{Answered, StoredListing};
ghost use Rattle.sampling.specs.SampleDemand.{OfEachLine};
ghost use Rattle.sampling.specs.Twins.Lines.{sample_left};
ghost use Rattle.window.specs.Windows.{windowed};
ghost use Rattle.print.specs.Twins.ListedText.{sampled_listed};
ghost use Rattle.telling.specs.Numbers.{said_after};
ghost use Rattle.answers.specs.ListNumbers.{number_of, said_of, answer_from};
ghost use Rattle.bindings.specs.SampleNumbers.{sampled_number, sampled_said};
ghost use Rattle.bindings.specs.Told.{ListTold};

use print::first::list_first_sampled;
use print::list::print_sampled;
use sampling::line::{SAMPLE, Sampled, Unsampled, sample_line};
use telling::list::{answer_from, tell_printed};
use telling::sample::tell_sample;

// A line's output has a node at least, so that no cells tell that there is no such line.
fn tell_sampled(a: Result<Sampled, Unsampled>, said: &mut [usize]) -> usize
    ensures { (result ≡ sampled_number a) × (said.new ≡ said_after (sampled_number a) (sampled_said a) said.old) }
{
    match a {
        Ok(Sampled { ins, out }) => tell_sample(false, ins, out, said),
        Err(Unsampled::Absent) => tell_sample(false, 0, 0, said),
        Err(Unsampled::Short) => tell_sample(true, 0, 0, said),
    }
}

// `sampling::line::sample_line`: 0, and in `said` the cells of the sample's inputs and those of its output, which stand in `sample`; 20 where that is too short.
#[unsafe(no_mangle)]
pub extern "C" fn raugvite_sample(
    answer: &[u16],
    line: usize,
    sample: &mut [u16],
    said: &mut [usize],
) -> usize
    ensures { (let w = sample_left line answer.now sample.old in (result ≡ sampled_number w.answer) × (sample.new ≡ w.cells) × (said.new ≡ said_after (sampled_number w.answer) (sampled_said w.answer) said.old)) × OfEachLine answer.now line (sample_left line answer.now sample.old).answer sample.old sample.new }
{
    let a = sample_line(answer, line, sample);
    tell_sampled(a, said)
}

// `print::first::list_first_sampled`, told as `raugvite_list_print` tells it.
#[unsafe(no_mangle)]
pub extern "C" fn raugvite_list_print_sampled(
    program: &[u8],
    job: &[u8],
    work: &mut [u16],
    answer: &mut [u16],
    said: &mut [usize],
    out: &mut [u8],
) -> usize
    ensures { (let w = list_left program.now job.now work.old answer.old in let text = sampled_listed program.now job.now w.cells w.answer in (result ≡ number_of w.answer) × (work.new ≡ w.work) × (answer.new ≡ w.cells) × (said.new ≡ said_after (number_of w.answer) (said_of w.answer ++ (min (length out.old) (length text) ∷ [])) said.old) × (out.new ≡ windowed (length out.old) 0 text)) × (too_short work.old answer.old ≡ false → (let w = list_left program.now job.now work.old answer.old in sampled_listed program.now job.now w.cells w.answer ≡ sampled_text program.now job.now)) × ((s : SProg) (t : SJob) → reading lister program.now job.now ≡ accepted s t → Answered (list_left program.now job.now work.old answer.old).answer → StoredListing (prog s) (class t) t.steps.num (limits t) (list_left program.now job.now work.old answer.old).answer answer.new) }
{
    let listed = list_first_sampled(program, job, work, answer, out);
    tell_printed(listed.answer, listed.bytes, said)
}

// `print::list::print_sampled` of the answer with this number and what `said` holds beside it.
#[unsafe(no_mangle)]
pub extern "C" fn raugvite_print_sampled(
    program: &[u8],
    job: &[u8],
    number: usize,
    said: &[usize],
    cells: &[u16],
    from: usize,
    out: &mut [u8],
) -> usize
    ensures { (let text = sampled_listed program.now job.now cells.now (answer_from number said.now) in (result ≡ min (length out.old) (length text - from)) × (out.new ≡ windowed (length out.old) from text)) × (ListTold program.now job.now number said.now cells.now → sampled_listed program.now job.now cells.now (answer_from number said.now) ≡ sampled_text program.now job.now) }
{
    let a = answer_from(number, said);
    print_sampled(program, job, a, cells, from, out)
}

// The least length of the storage for a sample, in cells.
#[unsafe(no_mangle)]
pub extern "C" fn raugvite_sample_cells() -> usize
    ensures { result ≡ 4096 }
{
    SAMPLE
}
