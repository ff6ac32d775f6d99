// The text of what a run comes to: `value STEPS EXPR`, `stop21` or `notwithin`.
ghost use Rattle.std.specs.Prelude.{◌≡◌, ◌*◌, ◌-◌, min, length, take};
ghost use Rattle.window.specs.Windows.{windowed};
ghost use Rattle.window.specs.Twins.Sink.{sink, puts};
ghost use Rattle.window.specs.Twins.TreeText.{symbol_text};
ghost use Rattle.writer.specs.Twins.OutcomeText.{value_text, outcome_text};

use run_answers::run::Ran;
use window::digit::put_digits;
use window::parts::front;
use window::sink;
use window::sink::Place;
use window::tree::put_tree;

fn put_value(
    out: &mut [u8],
    place: Place,
    program: &[u8],
    job: &[u8],
    symbols: &[u16],
    steps: usize,
    value: &[u16],
) -> Place
    ensures { sink result out.new ≡ puts (sink place out.old) (value_text (symbol_text program.now job.now symbols.now) steps value.now) }
{
    let p = sink::put_text(out, place, b"value ");
    let s = put_digits(out, p, steps);
    let b = sink::put_byte(out, s, b' ');
    let v = put_tree(out, b, program, job, symbols, value);
    sink::put_byte(out, v, b'\n')
}

fn put_outcome(
    out: &mut [u8],
    place: Place,
    program: &[u8],
    job: &[u8],
    symbols: &[u16],
    outcome: Ran,
    answer: &[u16],
) -> Place
    ensures { sink result out.new ≡ puts (sink place out.old) (outcome_text (symbol_text program.now job.now symbols.now) answer.now outcome) }
{
    match outcome {
        Ran::Value { steps, length } => {
            let value = front(answer, length);
            put_value(out, place, program, job, symbols, steps, value)
        }
        Ran::Over => sink::put_text(out, place, b"stop21\n"),
        Ran::NotWithin => sink::put_text(out, place, b"notwithin\n"),
    }
}

// The bytes of a run's text from the byte `from` on, as many as `out` has room for, then zeros; how many they are. The value stands in the
// first cells of `answer`.
pub fn print_outcome(
    program: &[u8],
    job: &[u8],
    symbols: &[u16],
    found: u16,
    outcome: Ran,
    answer: &[u16],
    from: usize,
    out: &mut [u8],
) -> usize
    ensures { let text = outcome_text (symbol_text program.now job.now (take (2 * found) symbols.now)) answer.now outcome in (result ≡ min (length out.old) (length text - from)) × (out.new ≡ windowed (length out.old) from text) }
{
    let table = front(symbols, 2 * usize::from(found));
    sink::clear(out);
    let start = sink::opened(from);
    let p = put_outcome(out, start, program, job, table, outcome, answer);
    sink::written(p)
}
