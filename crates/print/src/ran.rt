// The line that a run prints, from the two texts and from what `resolve::run` answered and left.
ghost use Rattle.std.specs.Prelude.{◌≡◌, false, List, ℕ, ◌-◌, min, length};
ghost use Rattle.listing.specs.Text.{run_text};
ghost use Rattle.resolve.specs.RunAnswer.{too_short, run_left};
ghost use Rattle.window.specs.Windows.{windowed};
ghost use Rattle.print.specs.Twins.Names.{found_in};
ghost use Rattle.print.specs.Twins.RanText.{named_text, ran_text};

use reading::both::Both;
use reading::stored::Stored;
use refusals::refusal::Refused;
use run_answers::run::{Answer, Ran};
use writer::outcome::print_outcome;
use writer::refusal::print_refusal;

// How many symbols both texts have; none where one is refused.
fn found_in(both: Result<Both, Refused>) -> u16
    ensures { result ≡ found_in both }
{
    match both {
        Ok(read) => read.symbols,
        Err(_) => 0,
    }
}

// What a run comes to, the symbols by their names in the texts, which are read again.
fn print_named(
    program: &[u8],
    job: &[u8],
    ran: Ran,
    cells: &[u16],
    from: usize,
    out: &mut [u8],
) -> usize
    ensures { let text = named_text program.now job.now cells.now ran in (result ≡ min (length out.old) (length text - from)) × (out.new ≡ windowed (length out.old) from text) }
{
    let mut texts = Stored::EMPTY;
    let mut work = [0u16; 8194];
    let both = texts.read(true, program, job, &mut work);
    let found = found_in(both);
    print_outcome(program, job, &texts.symbols, found, ran, cells, from, out)
}

// The bytes of the line from the byte `from` on, as many as `out` has room for, then zeros; how many they are. `cells` is the answer storage
// that `run` left: `value STEPS EXPR`, `stop21`, `notwithin` or the refusal. Of what it left and answered, the text is that of the run of the two texts.
pub fn print_run(
    program: &[u8],
    job: &[u8],
    answer: Answer,
    cells: &[u16],
    from: usize,
    out: &mut [u8],
) -> usize
    ensures { (let text = ran_text program.now job.now cells.now answer in (result ≡ min (length out.old) (length text - from)) × (out.new ≡ windowed (length out.old) from text)) × ((work d : List ℕ) → too_short work d ≡ false → cells.now ≡ (run_left program.now job.now work d).cells → answer ≡ (run_left program.now job.now work d).answer → ran_text program.now job.now cells.now answer ≡ run_text program.now job.now) }
{
    match answer {
        Ok(ran) => print_named(program, job, ran, cells, from, out),
        Err(refused) => print_refusal(
            refused.letter(),
            refused.number(),
            refused.offset(),
            from,
            out,
        ),
    }
}
