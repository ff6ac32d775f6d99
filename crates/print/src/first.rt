// A listing and the beginning of its text, from texts that are read once.
ghost use Rattle.std.specs.Prelude.{◌≡◌, min, length, false, Err};
ghost use Rattle.language.specs.Source.{SProg, SJob, prog, class};
ghost use Rattle.language.specs.JobCheck.{lister};
ghost use Rattle.language.specs.Reading.{accepted, reading};
ghost use Rattle.semantics.specs.Answer.{limits};
ghost use Rattle.resolve.specs.ListAnswer.{too_short, list_left};
ghost use Rattle.resolve.specs.ListDemand.{Answered, StoredListing};
ghost use Rattle.resolve.specs.Twins.ListCells.{ListOut, list_texts};
ghost use Rattle.window.specs.Windows.{windowed, Printed};
ghost use Rattle.listing.specs.Text.{print_refusal, list_text, sampled_text};
ghost use Rattle.reading.specs.Twins.BothCells.{both_over};
ghost use Rattle.refusals.specs.declared.refusal.Refused.TheVariants.{Short};
ghost use Rattle.answers.specs.Headings.{heading_of};
ghost use Rattle.print.specs.Twins.ListedText.{terms_left, read_listing, headed_text, SaidOut, listed_with, listed_text, sampled_listed, text_with};

use crate::list::{Terms, job_terms, print_listing};
use answers::heading::heading_of;
use answers::list::Answer;
use lent::room::short_for_lines;
use reading::stored::Stored;
use refusals::letters::{NEITHER, SHORT};
use refusals::refusal::Refused;
use resolve::list::list_read;
use writer::refusal::print_refusal;

// What `list` answers, and how many bytes of the lent page are text.
#[derive(Drop)]
pub struct Listed {
    pub answer: Answer,
    pub bytes: usize,
}

// The first page of the text of an answer; the job's inputs and output stand in the first cells of `terms`, the lines in `cells`.
fn print_said(
    program: &[u8],
    job: &[u8],
    symbols: &[u16],
    terms: &[u16],
    sizes: Terms,
    answer: Answer,
    cells: &[u16],
    out: &mut [u8],
) -> usize
    ensures { SaidOut (length out.old) program.now job.now symbols.now (terms_left sizes terms.now) cells.now answer result out.new }
{
    match heading_of(answer) {
        Ok(first) => print_listing(program, job, symbols, terms, sizes, first, cells, 0, out),
        Err(line) => print_refusal(line.letter, line.number, line.offset, 0, out),
    }
}

// The two texts, into storage that is long enough.
fn first_texts(
    program: &[u8],
    job: &[u8],
    work: &mut [u16],
    answer: &mut [u16],
    out: &mut [u8],
    samples: bool,
) -> Listed
    ensures { ListOut result.answer work.new answer.new (list_texts program.now job.now work.old answer.old) × Printed (length out.old) 0 (headed_text (read_listing samples program.now job.now (both_over false program.now job.now work.old) answer.new) (heading_of result.answer)) result.bytes out.new }
{
    let mut texts = Stored::EMPTY;
    let mut terms = [0u16; 4097];
    let both = texts.read(false, program, job, work);
    let sizes = job_terms(both, &texts.jmarks, &texts.jnums, &mut terms, samples);
    let said = list_read(
        both,
        &texts.marks,
        &texts.nums,
        &texts.ends,
        &texts.heads,
        &texts.jmarks,
        &texts.jnums,
        answer,
    );
    let bytes = print_said(
        program,
        job,
        &texts.symbols,
        &terms,
        sizes,
        said,
        answer,
        out,
    );
    Listed {
        answer: said,
        bytes,
    }
}

// 20: neither storage is touched.
fn short(out: &mut [u8]) -> Listed
    ensures { (result.answer ≡ Err Short) × Printed (length out.old) 0 (print_refusal 45 20 0) result.bytes out.new }
{
    let bytes = print_refusal(NEITHER, SHORT, 0, 0, out);
    Listed {
        answer: Err(Refused::Short),
        bytes,
    }
}

// What the two entries do, with samples or without.
fn list_page(
    program: &[u8],
    job: &[u8],
    work: &mut [u16],
    answer: &mut [u16],
    out: &mut [u8],
    samples: bool,
) -> Listed
    ensures { (let w = list_left program.now job.now work.old answer.old in let text = listed_with samples program.now job.now w.cells w.answer in ((result.answer ≡ w.answer) × (work.new ≡ w.work) × (answer.new ≡ w.cells)) × ((result.bytes ≡ min (length out.old) (length text)) × (out.new ≡ windowed (length out.old) 0 text))) × (too_short work.old answer.old ≡ false → (let w = list_left program.now job.now work.old answer.old in listed_with samples program.now job.now w.cells w.answer ≡ text_with samples program.now job.now)) × ((s : SProg) (t : SJob) → reading lister program.now job.now ≡ accepted s t → Answered result.answer → StoredListing (prog s) (class t) t.steps.num (limits t) result.answer answer.new) }
{
    if short_for_lines(work, answer) {
        return short(out);
    }
    first_texts(program, job, work, answer, out, samples)
}

// `resolve::list`, and in `out` the text that `print_list` prints of what it leaves, from its first byte on, as many bytes as there is room for,
// then zeros: where the storages are long enough, that of the listing of the two texts. The texts are read once.
pub fn list_first(
    program: &[u8],
    job: &[u8],
    work: &mut [u16],
    answer: &mut [u16],
    out: &mut [u8],
) -> Listed
    ensures { (let w = list_left program.now job.now work.old answer.old in let text = listed_text program.now job.now w.cells w.answer in ((result.answer ≡ w.answer) × (work.new ≡ w.work) × (answer.new ≡ w.cells)) × ((result.bytes ≡ min (length out.old) (length text)) × (out.new ≡ windowed (length out.old) 0 text))) × (too_short work.old answer.old ≡ false → (let w = list_left program.now job.now work.old answer.old in listed_text program.now job.now w.cells w.answer ≡ list_text program.now job.now)) × ((s : SProg) (t : SJob) → reading lister program.now job.now ≡ accepted s t → Answered result.answer → StoredListing (prog s) (class t) t.steps.num (limits t) result.answer answer.new) }
{
    list_page(program, job, work, answer, out, false)
}

// The same with the text that `print_sampled` prints.
pub fn list_first_sampled(
    program: &[u8],
    job: &[u8],
    work: &mut [u16],
    answer: &mut [u16],
    out: &mut [u8],
) -> Listed
    ensures { (let w = list_left program.now job.now work.old answer.old in let text = sampled_listed program.now job.now w.cells w.answer in ((result.answer ≡ w.answer) × (work.new ≡ w.work) × (answer.new ≡ w.cells)) × ((result.bytes ≡ min (length out.old) (length text)) × (out.new ≡ windowed (length out.old) 0 text))) × (too_short work.old answer.old ≡ false → (let w = list_left program.now job.now work.old answer.old in sampled_listed program.now job.now w.cells w.answer ≡ sampled_text program.now job.now)) × ((s : SProg) (t : SJob) → reading lister program.now job.now ≡ accepted s t → Answered result.answer → StoredListing (prog s) (class t) t.steps.num (limits t) result.answer answer.new) }
{
    list_page(program, job, work, answer, out, true)
}
