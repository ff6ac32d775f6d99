// The resolver over two texts (01, "The walk and what stops it"): the lines that the job's inputs and wanted output come to. What it
// answers and leaves is defined in specs/ListAnswer.antt.
ghost use Rattle.std.specs.Prelude.{◌≡◌};
ghost use Rattle.language.specs.Source.{SProg, SJob, prog, class};
ghost use Rattle.language.specs.JobCheck.{lister};
ghost use Rattle.language.specs.Reading.{accepted, reading};
ghost use Rattle.semantics.specs.Answer.{limits};
ghost use Rattle.resolve.specs.ListAnswer.{list_left};
ghost use Rattle.resolve.specs.ListDemand.{Answered, StoredListing};
ghost use Rattle.resolve.specs.Twins.ListCells.{ended_as, came_to, read_left, listed_read, ListOut, list_texts};

use answers::list::{Answer, Listed, Word, unstopped};
use initial::begin::main_body;
use lent::clear::clear;
use lent::room;
use lent::room::short_for_lines;
use linking::program::{link_program, program_end};
use reading::both::Both;
use reading::stored::Stored;
use refusals::refusal::Refused;
use turns::found::{Ending, Walked};
use walk::job::walk_job;

// The least lengths of the lent storages, in cells.
pub const WORK: usize = room::WORK;

pub const ANSWER: usize = room::LINES;

// Where nothing is untaken the walk isn't stopped; else by what stopped it: 21, 22 or 23.
fn ended_as(ending: Ending, cut: bool) -> Word
    ensures { result ≡ ended_as ending cut }
{
    match ending {
        Ending::Done => unstopped(cut),
        Ending::Over => Word::Stop21,
        Ending::Full => Word::Stop22,
        Ending::Spent => Word::Stop23,
    }
}

fn came_to(w: Walked) -> Listed
    ensures { result ≡ came_to w }
{
    Listed {
        word: ended_as(w.ending, w.found.cut),
        lines: w.found.lines.count,
        count: w.found.count,
    }
}

// What was read of both texts: an accepted program linked and walked from the job's start. The lines stand in `answer`, zeros behind them; a
// refusal leaves it as it is. Not inlined: the linked program is to take no stack while the texts are read.
#[inline(never)]
pub fn list_read(
    both: Result<Both, Refused>,
    marks: &[u16],
    nums: &[u16],
    ends: &[u16],
    heads: &[u16; 64],
    jmarks: &[u16],
    jnums: &[u16],
    answer: &mut [u16],
) -> Answer
    ensures { read_left result answer.new ≡ listed_read both marks.now nums.now ends.now heads.now jmarks.now jnums.now answer.old }
{
    let both = both?;
    let mut code: [u16; 24582] = [0; 24582];
    link_program(marks, nums, ends, heads, both.count, &mut code);
    let tokens = program_end(ends, heads, both.count);
    let body = main_body(marks, heads);
    clear(answer);
    let walked = walk_job(
        &mut code,
        tokens,
        body,
        jmarks,
        jnums,
        both.parts,
        both.numerals,
        answer,
    );
    Ok(came_to(walked))
}

// The two texts, into storage that is long enough.
fn list_texts(program: &[u8], job: &[u8], work: &mut [u16], answer: &mut [u16]) -> Answer
    ensures { ListOut result work.new answer.new (list_texts program.now job.now work.old answer.old) }
{
    let mut texts = Stored::EMPTY;
    let both = texts.read(false, program, job, work);
    list_read(
        both,
        &texts.marks,
        &texts.nums,
        &texts.ends,
        &texts.heads,
        &texts.jmarks,
        &texts.jnums,
        answer,
    )
}

// Walks the program from the job's start by figure 10 of 001. The lines stand in `answer`, zeros behind them; `work` is zero after the
// call. 20 comes before all else and touches nothing. Demands 2 and 3 hold of the lines read back from `answer`.
pub fn list(program: &[u8], job: &[u8], work: &mut [u16], answer: &mut [u16]) -> Answer
    ensures { (let w = list_left program.now job.now work.old answer.old in (result ≡ w.answer) × (work.new ≡ w.work) × (answer.new ≡ w.cells)) × ((s : SProg) (t : SJob) → reading lister program.now job.now ≡ accepted s t → Answered result → StoredListing (prog s) (class t) t.steps.num (limits t) result answer.new) }
{
    if short_for_lines(work, answer) {
        return Err(Refused::Short);
    }
    list_texts(program, job, work, answer)
}
