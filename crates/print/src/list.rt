// The text of a listing, from the two texts and from what `resolve::list` answered and left.
ghost use Rattle.std.specs.Prelude.{◌≡◌, false, List, ℕ, ◌-◌, min, length};
ghost use Rattle.listing.specs.Text.{list_text, sampled_text};
ghost use Rattle.resolve.specs.ListAnswer.{too_short, list_left};
ghost use Rattle.window.specs.Windows.{windowed};
ghost use Rattle.window.specs.Twins.Sink.{Wrote};
ghost use Rattle.print.specs.Twins.ListingText.{word_text, first_text};
ghost use Rattle.print.specs.Twins.ListedText.{terms_left, job_terms, table_listing, terms_listing, named_listing, listed_with, listed_text, sampled_listed};

use answers::heading::heading_of;
use answers::list::{Answer, Listed, Word};
use layout::job::lay_job;
use reading::both::Both;
use reading::stored::Stored;
use refusals::refusal::Refused;
use samples::names::name_table;
use window::parts::front;
use window::sink;
use window::sink::Place;
use writer::line::{put_lines, put_numbers};
use writer::refusal::print_refusal;

fn put_word(out: &mut [u8], place: Place, word: Word) -> Place
    ensures { Wrote place out.old (word_text word) result out.new }
{
    match word {
        Word::Whole => sink::put_text(out, place, b"whole "),
        Word::Cut => sink::put_text(out, place, b"cut "),
        Word::Stop21 => sink::put_text(out, place, b"stop21 "),
        Word::Stop22 => sink::put_text(out, place, b"stop22 "),
        Word::Stop23 => sink::put_text(out, place, b"stop23 "),
    }
}

// "First line: `whole`, `cut` or `stop21` to `stop23`, the lines, the transitions."
fn put_first(out: &mut [u8], place: Place, first: Listed) -> Place
    ensures { Wrote place out.old (first_text first.word first.lines first.count) result out.new }
{
    let p = put_word(out, place, first.word);
    let q = put_numbers(out, p, first.lines, first.count);
    sink::put_byte(out, q, b'\n')
}

// How many symbols both texts have, how many cells the job's inputs and output take, and whether samples are called for.
#[derive(Clone, Copy)]
pub(crate) struct Terms {
    symbols: u16,
    cells: usize,
    samples: bool,
}

// A listing, the symbols by the table of their names.
fn print_by_names(
    program: &[u8],
    job: &[u8],
    names: &[u16],
    terms: &[u16],
    sizes: Terms,
    first: Listed,
    answer: &[u16],
    from: usize,
    out: &mut [u8],
) -> usize
    ensures { let text = table_listing program.now job.now names.now (terms_left sizes terms.now) answer.now first.word first.lines first.count in (result ≡ min (length out.old) (length text - from)) × (out.new ≡ windowed (length out.old) from text) }
{
    sink::clear(out);
    let p = put_first(out, sink::opened(from), first);
    let job_cells = front(terms, sizes.cells);
    let q = put_lines(
        out,
        p,
        program,
        job,
        names,
        job_cells,
        first.lines,
        answer,
        sizes.samples,
    );
    sink::written(q)
}

// The bytes of a listing's text from the byte `from` on, as many as `out` has room for, then zeros; how many they are. With samples the table of the names
// has those of new atoms too. The job's inputs and output stand in the first cells of `terms`, the lines one behind the other in `answer`.
pub(crate) fn print_listing(
    program: &[u8],
    job: &[u8],
    symbols: &[u16],
    terms: &[u16],
    sizes: Terms,
    first: Listed,
    answer: &[u16],
    from: usize,
    out: &mut [u8],
) -> usize
    ensures { let text = terms_listing program.now job.now symbols.now (terms_left sizes terms.now) answer.now first.word first.lines first.count in (result ≡ min (length out.old) (length text - from)) × (out.new ≡ windowed (length out.old) from text) }
{
    let table = front(symbols, 2 * (sizes.symbols as usize));
    if sizes.samples {
        let mut names = [0u16; 6144];
        name_table(program, job, table, &mut names);
        return print_by_names(program, job, &names, terms, sizes, first, answer, from, out);
    }
    print_by_names(program, job, table, terms, sizes, first, answer, from, out)
}

// The job's inputs and output, laid out again from its tokens. Nothing of texts that are refused.
pub(crate) fn job_terms(
    both: Result<Both, Refused>,
    jmarks: &[u16],
    jnums: &[u16],
    terms: &mut [u16],
    samples: bool,
) -> Terms
    ensures { terms_left result terms.new ≡ job_terms samples both jmarks.now jnums.now terms.old }
{
    let (symbols, cells) = match both {
        Ok(read) => match lay_job(jmarks, jnums, read.parts, terms, false) {
            Some(laid) => (read.symbols, laid.io),
            None => (read.symbols, 0),
        },
        Err(_) => (0, 0),
    };
    Terms {
        symbols,
        cells,
        samples,
    }
}

// A listing, the symbols and variables by the two texts, which are read again.
fn print_named(
    program: &[u8],
    job: &[u8],
    first: Listed,
    cells: &[u16],
    from: usize,
    out: &mut [u8],
    samples: bool,
) -> usize
    ensures { let text = named_listing samples program.now job.now cells.now first.word first.lines first.count in (result ≡ min (length out.old) (length text - from)) × (out.new ≡ windowed (length out.old) from text) }
{
    let mut texts = Stored::EMPTY;
    let mut work: [u16; 8194] = [0; 8194];
    let mut terms: [u16; 4097] = [0; 4097];
    let both = texts.read(false, program, job, &mut work);
    let sizes = job_terms(both, &texts.jmarks, &texts.jnums, &mut terms, samples);
    print_listing(
        program,
        job,
        &texts.symbols,
        &terms,
        sizes,
        first,
        cells,
        from,
        out,
    )
}

// What the two entries do, with samples or without: the listing or the refusal that an answer is.
fn print_answer(
    program: &[u8],
    job: &[u8],
    answer: Answer,
    cells: &[u16],
    from: usize,
    out: &mut [u8],
    samples: bool,
) -> usize
    ensures { let text = listed_with samples program.now job.now cells.now answer in (result ≡ min (length out.old) (length text - from)) × (out.new ≡ windowed (length out.old) from text) }
{
    match heading_of(answer) {
        Ok(first) => print_named(program, job, first, cells, from, out, samples),
        Err(line) => print_refusal(line.letter, line.number, line.offset, from, out),
    }
}

// The bytes of the listing's text from the byte `from` on, as many as `out` has room for, then zeros; how many they are. `cells` is the
// answer storage that `list` left: of what it left and answered, the text is that of the listing of the two texts.
pub fn print_list(
    program: &[u8],
    job: &[u8],
    answer: Answer,
    cells: &[u16],
    from: usize,
    out: &mut [u8],
) -> usize
    ensures { (let text = listed_text program.now job.now cells.now answer in (result ≡ min (length out.old) (length text - from)) × (out.new ≡ windowed (length out.old) from text)) × ((work d : List ℕ) → too_short work d ≡ false → cells.now ≡ (list_left program.now job.now work d).cells → answer ≡ (list_left program.now job.now work d).answer → listed_text program.now job.now cells.now answer ≡ list_text program.now job.now) }
{
    print_answer(program, job, answer, cells, from, out, false)
}

// The same with a sample under each line: "each prints under its line as `(in D ..) (out D)`" (02, request 2). Of what `list` left and answered, the text
// is that of the listing of the two texts with samples.
pub fn print_sampled(
    program: &[u8],
    job: &[u8],
    answer: Answer,
    cells: &[u16],
    from: usize,
    out: &mut [u8],
) -> usize
    ensures { (let text = sampled_listed program.now job.now cells.now answer in (result ≡ min (length out.old) (length text - from)) × (out.new ≡ windowed (length out.old) from text)) × ((work d : List ℕ) → too_short work d ≡ false → cells.now ≡ (list_left program.now job.now work d).cells → answer ≡ (list_left program.now job.now work d).answer → sampled_listed program.now job.now cells.now answer ≡ sampled_text program.now job.now) }
{
    print_answer(program, job, answer, cells, from, out, true)
}
