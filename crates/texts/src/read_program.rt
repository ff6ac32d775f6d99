// Reading and checking a program: "Each: 1; 2; then 3, 4, 5 at the earliest token. Program: 6; then 7, 8, 9 at the earliest token"
// (01, "From the input"), and 13 "after 6 and before 7, 8 and 9" (02, request 1).
ghost use Rattle.std.specs.Prelude.{◌≡◌, false};
ghost use Rattle.words.specs.Twins.Cutting.{bytes_at};
ghost use Rattle.grammar.specs.Twins.Positions.{on_past};
ghost use Rattle.lexer.specs.Twins.Lexed.{cut_from, starting};
ghost use Rattle.texts.specs.Twins.ReadCells.{FoundOut, program_reading};
ghost use Rattle.syntax.specs.Twins.ReadAnswer.{program_judged};

use crate::found::settle;
use lent::read::{Read, Unread, long_enough};
use lexer::lexer::{Cut, cut_tokens};
use refusals::refusal::Refusal;
use syntax::judge::judge_program;
use words::bytes::sound_program;

// The tokens of a program, in storage that is long enough, or why it is refused.
fn find_program(
    text: &[u8],
    marks: &mut [u16],
    nums: &mut [u16],
    ats: &mut [u16],
    symbols: &mut [u16],
    names: &mut [u16],
) -> Result<Cut, Refusal>
    ensures { let s = cut_from false text.now text.now 4097 (starting marks.old nums.old ats.old symbols.old names.old 0) in FoundOut result marks.new nums.new ats.new symbols.new names.new (on_past (λ k. program_judged s.marks s.nums s.ats s.i) (bytes_at 32768 text.now)) s }
{
    sound_program(text)?;
    let cut = cut_tokens(false, text, text, marks, nums, ats, symbols, 0, names);
    judge_program(marks, nums, ats, cut.tokens)?;
    Ok(cut)
}

// Accepted: the program's tokens stand in marks, nums and ats, and its symbols in their table; names is nought. Refused: all is nought.
pub fn read_program(
    text: &[u8],
    marks: &mut [u16],
    nums: &mut [u16],
    ats: &mut [u16],
    symbols: &mut [u16],
    names: &mut [u16],
) -> Result<Read, Unread>
    ensures { let w = program_reading text.now marks.old nums.old ats.old symbols.old names.old in (result ≡ w.answer) × (marks.new ≡ w.marks) × (nums.new ≡ w.nums) × (ats.new ≡ w.ats) × (symbols.new ≡ w.symbols) × (names.new ≡ w.names) }
{
    if !long_enough(marks, nums, ats, symbols, names) {
        return Err(Unread::Short);
    }
    let found = find_program(text, marks, nums, ats, symbols, names);
    settle(found, marks, nums, ats, symbols, names)
}
