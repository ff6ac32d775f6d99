// What a reader answers and leaves, once it has found the tokens of a text or why it is refused.
ghost use Rattle.texts.specs.Twins.ReadCells.{ReadOut, settled};

use lent::clear::{clear, clear_tokens};
use lent::read::{Read, Unread};
use lexer::lexer::Cut;
use refusals::refusal::Refusal;

// The tokens that were found stay; a refusal leaves nothing behind. The words that are no symbols are lent for the reading alone.
pub(crate) fn settle(
    found: Result<Cut, Refusal>,
    marks: &mut [u16],
    nums: &mut [u16],
    ats: &mut [u16],
    symbols: &mut [u16],
    names: &mut [u16],
) -> Result<Read, Unread>
    ensures { ReadOut result marks.new nums.new ats.new symbols.new names.new (settled found marks.old nums.old ats.old symbols.old names.old) }
{
    clear(names);
    match found {
        Ok(cut) => Ok(Read {
            tokens: cut.tokens,
            symbols: cut.symbols,
        }),
        Err(refusal) => {
            clear_tokens(marks, nums, ats, symbols);
            Err(Unread::Refused(refusal))
        }
    }
}
