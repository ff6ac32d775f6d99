// A symbol, `?eK` or `?aK`, from its code.
ghost use Rattle.std.specs.Prelude.{◌≡◌, drop};
ghost use Rattle.listing.specs.Sample.{name_q};
ghost use Rattle.words.specs.Twins.Cutting.{word_at};
ghost use Rattle.lexer.specs.Twins.Table.{word_in};
ghost use Rattle.window.specs.Twins.Sink.{sink, puts};
ghost use Rattle.window.specs.Twins.TreeText.{symbol_text, leaf_text};

use crate::digit::put_digits;
use crate::sink::{Place, put_byte, put_text};
use lexer::table;

// The name that begins at `i`: the word behind its quote.
fn name_at(text: &[u8], i: usize) -> &[u8]
    ensures { result.now ≡ drop 1 (word_at text.now i) }
{
    let word = table::word_at(text, i);
    if word.is_empty() {
        return word;
    }
    &word[1..]
}

// The name at this offset: from 32,769 on in the job.
fn put_name(out: &mut [u8], place: Place, program: &[u8], job: &[u8], at: u16) -> Place
    ensures { sink result out.new ≡ puts (sink place out.old) (drop 1 (word_in program.now job.now at)) }
{
    if at < 32769 {
        return put_text(out, place, name_at(program, at as usize));
    }
    put_text(out, place, name_at(job, (at - 32769) as usize))
}

// "New atoms are named Q and a number"
fn put_new(out: &mut [u8], place: Place, number: u16) -> Place
    ensures { sink result out.new ≡ puts (sink place out.old) (name_q number) }
{
    let p = put_byte(out, place, b'Q');
    put_digits(out, p, number as usize)
}

// The symbol n as it stands first; from 1,024 on a new atom. One that the table has not is none of the texts, and has no name.
fn put_symbol(
    out: &mut [u8],
    place: Place,
    program: &[u8],
    job: &[u8],
    symbols: &[u16],
    n: u16,
) -> Place
    ensures { sink result out.new ≡ puts (sink place out.old) (symbol_text program.now job.now symbols.now n) }
{
    let p = put_byte(out, place, b'\'');
    if n < 1024 {
        let k = 2 * (n as usize) + 1;
        return match symbols.get(k) {
            Some(&at) => put_name(out, p, program, job, at),
            None => p,
        };
    }
    let k = 1024 + n as usize;
    match symbols.get(k) {
        Some(&number) => put_new(out, p, number),
        None => p,
    }
}

pub fn put_leaf(
    out: &mut [u8],
    place: Place,
    program: &[u8],
    job: &[u8],
    symbols: &[u16],
    code: u16,
) -> Place
    ensures { sink result out.new ≡ puts (sink place out.old) (leaf_text (symbol_text program.now job.now symbols.now) code) }
{
    let n = code / 4;
    match code % 4 {
        1 => put_symbol(out, place, program, job, symbols, n),
        2 => {
            let e = put_text(out, place, b"?e");
            put_digits(out, e, n as usize)
        }
        _ => {
            let a = put_text(out, place, b"?a");
            put_digits(out, a, n as usize)
        }
    }
}
