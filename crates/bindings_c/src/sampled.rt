// The sample of a line, and listings printed with samples (02, request 2).
ghost use Rattle.std.specs.Prelude.{◌≡◌, false, [], ◌∷◌, ◌++◌, ◌-◌, min, length};
ghost use Rattle.language.specs.Source.{SProg, SJob, prog, class};
ghost use Rattle.language.specs.JobCheck.{lister};
ghost use Rattle.language.specs.Reading.{accepted, reading};
ghost use Rattle.semantics.specs.Answer.{limits};
ghost use Rattle.listing.specs.Text.{sampled_text};
ghost use Rattle.resolve.specs.ListAnswer.{too_short, list_left};
ghost use Rattle.resolve.specs.ListDemand.{Answered, StoredListing};
ghost use Rattle.sampling.specs.SampleDemand.{OfEachLine};
ghost use Rattle.sampling.specs.Twins.Lines.{sample_left};
ghost use Rattle.window.specs.Windows.{windowed};
ghost use Rattle.print.specs.Twins.ListedText.{sampled_listed};
ghost use Rattle.telling.specs.Numbers.{said_after};
ghost use Rattle.answers.specs.ListNumbers.{number_of, said_of, answer_from};
ghost use Rattle.bindings.specs.SampleNumbers.{sampled_number, sampled_said};
ghost use Rattle.bindings.specs.Told.{ListTold};

#[unsafe(no_mangle)]
pub extern "C" fn raugvite_sample(
    answer: &[u16],
    line: usize,
    sample: &mut [u16],
    said: &mut [usize],
) -> usize
    ensures { (let w = sample_left line answer.now sample.old in (result ≡ sampled_number w.answer) × (sample.new ≡ w.cells) × (said.new ≡ said_after (sampled_number w.answer) (sampled_said w.answer) said.old)) × OfEachLine answer.now line (sample_left line answer.now sample.old).answer sample.old sample.new }
{
    bindings::sampled::raugvite_sample(answer, line, sample, said)
}

#[unsafe(no_mangle)]
pub extern "C" fn raugvite_list_print_sampled(
    program: &[u8],
    job: &[u8],
    work: &mut [u16],
    answer: &mut [u16],
    said: &mut [usize],
    out: &mut [u8],
) -> usize
    ensures { (let w = list_left program.now job.now work.old answer.old in let text = sampled_listed program.now job.now w.cells w.answer in (result ≡ number_of w.answer) × (work.new ≡ w.work) × (answer.new ≡ w.cells) × (said.new ≡ said_after (number_of w.answer) (said_of w.answer ++ (min (length out.old) (length text) ∷ [])) said.old) × (out.new ≡ windowed (length out.old) 0 text)) × (too_short work.old answer.old ≡ false → (let w = list_left program.now job.now work.old answer.old in sampled_listed program.now job.now w.cells w.answer ≡ sampled_text program.now job.now)) × ((s : SProg) (t : SJob) → reading lister program.now job.now ≡ accepted s t → Answered (list_left program.now job.now work.old answer.old).answer → StoredListing (prog s) (class t) t.steps.num (limits t) (list_left program.now job.now work.old answer.old).answer answer.new) }
{
    bindings::sampled::raugvite_list_print_sampled(program, job, work, answer, said, out)
}

#[unsafe(no_mangle)]
pub extern "C" fn raugvite_print_sampled(
    program: &[u8],
    job: &[u8],
    number: usize,
    said: &[usize],
    cells: &[u16],
    from: usize,
    out: &mut [u8],
) -> usize
    ensures { (let text = sampled_listed program.now job.now cells.now (answer_from number said.now) in (result ≡ min (length out.old) (length text - from)) × (out.new ≡ windowed (length out.old) from text)) × (ListTold program.now job.now number said.now cells.now → sampled_listed program.now job.now cells.now (answer_from number said.now) ≡ sampled_text program.now job.now) }
{
    bindings::sampled::raugvite_print_sampled(program, job, number, said, cells, from, out)
}

#[unsafe(no_mangle)]
pub extern "C" fn raugvite_sample_cells() -> usize
    ensures { result ≡ 4096 }
{
    bindings::sampled::raugvite_sample_cells()
}
