// "then ` VAR=EXPR` for each job variable that was bound, in order of first standing in the job": the job's cells beside the line's,
// which are the same but for what stands in the place of variables.
ghost use Rattle.std.specs.Prelude.{◌≡◌};
ghost use Rattle.window.specs.Twins.Sink.{sink, puts};
ghost use Rattle.window.specs.Twins.TreeText.{symbol_text};
ghost use Rattle.writer.specs.Twins.LineText.{past_at, binding_at, binding_text, bindings_text};

use cells::cell;
use sets::tree;
use window::leaf::put_leaf;
use window::parts::{ahead, part};
use window::sink::{Place, put_byte};
use window::tree::put_tree;

// The line's cells `start` up to `end`.
#[derive(Clone, Copy)]
struct Span {
    start: usize,
    end: usize,
}

// Where the line goes on behind what stands at k beside the job's cell c.
fn past(c: u16, line: &[u16], k: usize) -> usize
    ensures { result ≡ past_at c line.now k }
{
    if c == tree::PAIR {
        return ahead(k, 1, line.len());
    }
    tree::tree_end(line, k)
}

// ` VAR=EXPR`, the expression being cells k up to `end` of the line.
fn put_bound(
    out: &mut [u8],
    place: Place,
    program: &[u8],
    job: &[u8],
    symbols: &[u16],
    c: u16,
    line: &[u16],
    k: usize,
    end: usize,
) -> Place
    ensures { sink result out.new ≡ puts (sink place out.old) (binding_text (symbol_text program.now job.now symbols.now) c line.now k end) }
{
    let p = put_byte(out, place, b' ');
    let q = put_leaf(out, p, program, job, symbols, c);
    let t = put_byte(out, q, b'=');
    put_tree(out, t, program, job, symbols, part(line, k, end))
}

// The binding of the job's cell i, if it is a variable that stands here first and is bound; beside it stands `value` of the line.
fn put_binding(
    out: &mut [u8],
    place: Place,
    program: &[u8],
    job: &[u8],
    symbols: &[u16],
    io: &[u16],
    i: usize,
    line: &[u16],
    value: Span,
) -> Place
    ensures { sink result out.new ≡ puts (sink place out.old) (binding_at (symbol_text program.now job.now symbols.now) io.now i line.now value.start value.end) }
{
    let k = value.start;
    let end = value.end;
    let c = cell::cell(io, i);
    if c % 4 < 2 {
        return place;
    }
    if tree::stands_in(io, 0, i, c) {
        return place;
    }
    if cell::cell(line, k) == c {
        return place;
    }
    put_bound(out, place, program, job, symbols, c, line, k, end)
}

pub fn put_bindings(
    out: &mut [u8],
    place: Place,
    program: &[u8],
    job: &[u8],
    symbols: &[u16],
    io: &[u16],
    line: &[u16],
) -> Place
    ensures { sink result out.new ≡ puts (sink place out.old) (bindings_text (symbol_text program.now job.now symbols.now) io.now line.now) }
{
    let mut p = place;
    let mut k: usize = 0;
    for i in 0..io.len() {
        let end = past(io[i], line, k);
        let value = Span { start: k, end };
        p = put_binding(out, p, program, job, symbols, io, i, line, value);
        k = end;
    }
    p
}
