// Reading and checking a job against a program that was read: "Each: 1; 2; then 3, 4, 5 at the earliest token. Job: 10, 11, 12"
// (01, "From the input"). `runs` is whether the tool is the runner.
ghost use Rattle.std.specs.Prelude.{◌≡◌, true};
ghost use Rattle.words.specs.Twins.Cutting.{bytes_at};
ghost use Rattle.grammar.specs.Twins.Positions.{on_past};
ghost use Rattle.lexer.specs.Twins.Lexed.{cut_from, starting};
ghost use Rattle.texts.specs.Twins.ReadCells.{ReadOut, FoundOut, job_cells, job_reading, ProgramLeft};
ghost use Rattle.syntax.specs.Twins.ReadAnswer.{job_judged};
ghost use Rattle.language.specs.Source.{SProg};

use crate::found::settle;
use lent::read::{Read, Unread, long_enough};
use lexer::lexer::{Cut, cut_tokens};
use refusals::refusal::Refusal;
use syntax::judge::judge_job;
use words::bytes::sound_job;

// The program before the job: its text, the marks of its tokens, how many tokens and how many symbols it has.
#[derive(Clone, Copy)]
pub struct Before<'a> {
    pub text: &'a [u8],
    pub marks: &'a [u16],
    pub tokens: usize,
    pub symbols: u16,
}

// The tokens of a job, in storage that is long enough, or why it is refused.
fn find_job(
    runs: bool,
    before: Before<'_>,
    text: &[u8],
    marks: &mut [u16],
    nums: &mut [u16],
    ats: &mut [u16],
    symbols: &mut [u16],
    names: &mut [u16],
) -> Result<Cut, Refusal>
    ensures { let s = cut_from true before.entry.text.now text.now 4097 (starting marks.old nums.old ats.old symbols.old names.old before.entry.symbols) in FoundOut result marks.new nums.new ats.new symbols.new names.new (on_past (λ k. job_judged runs before.entry.marks.now before.entry.tokens text.now s.marks s.nums s.ats s.i) (bytes_at 8192 text.now)) s }
{
    sound_job(text)?;
    let cut = cut_tokens(
        true,
        before.text,
        text,
        marks,
        nums,
        ats,
        symbols,
        before.symbols,
        names,
    );
    judge_job(
        runs,
        before.marks,
        before.tokens,
        text,
        marks,
        nums,
        ats,
        cut.tokens,
    )?;
    Ok(cut)
}

// Accepted: the job's tokens stand in marks, nums and ats, and the symbols of both texts in their table, which begins with the program's;
// names is nought. Refused: all is nought.
pub fn read_job(
    runs: bool,
    before: Before<'_>,
    text: &[u8],
    marks: &mut [u16],
    nums: &mut [u16],
    ats: &mut [u16],
    symbols: &mut [u16],
    names: &mut [u16],
) -> Result<Read, Unread>
    ensures { (let w = job_cells runs before.entry.text.now before.entry.marks.now before.entry.tokens text.now marks.old nums.old ats.old symbols.old before.entry.symbols names.old in (result ≡ w.answer) × (marks.new ≡ w.marks) × (nums.new ≡ w.nums) × (ats.new ≡ w.ats) × (symbols.new ≡ w.symbols) × (names.new ≡ w.names)) × ((p : SProg) → ProgramLeft before.entry.text.now before.entry.marks.now before.entry.tokens symbols.old before.entry.symbols p → ReadOut result marks.new nums.new ats.new symbols.new names.new (job_reading runs before.entry.text.now p text.now marks.old nums.old ats.old symbols.old before.entry.symbols names.old)) }
{
    if !long_enough(marks, nums, ats, symbols, names) {
        return Err(Unread::Short);
    }
    let found = find_job(runs, before, text, marks, nums, ats, symbols, names);
    settle(found, marks, nums, ats, symbols, names)
}
