// A tree, cell by cell. No stack is kept: which pairs end at a leaf is counted from the cells before it.
ghost use Rattle.std.specs.Prelude.{◌≡◌};
ghost use Rattle.window.specs.Twins.Sink.{sink, puts};
ghost use Rattle.window.specs.Twins.TreeText.{symbol_text, closings, behind_leaf, tree_text};

use crate::leaf::put_leaf;
use crate::sink::{Place, put_byte, put_repeat, put_text};
use cells::cell;
use sets::tree;

// How many pairs end where the first `to` cells do. Going back, `trees` trees are whole from there on; a pair joins two of them, and ends
// there itself if they were all. A pair that has but one waits for its tail.
fn count_closings(cells: &[u16], to: usize) -> usize
    ensures { result ≡ closings cells.now to 0 }
{
    let mut trees: usize = 0;
    let mut n: usize = 0;
    for k in 0..to {
        if cell::cell(cells, to - (k + 1)) != tree::PAIR {
            trees += 1;
            continue;
        }
        if trees < 2 {
            return n;
        }
        trees -= 1;
        if trees == 1 {
            n += 1;
            continue;
        }
    }
    n
}

// Behind a leaf that ends before the cell i: a bracket for each pair that ends there, and a blank before what follows.
fn put_behind(out: &mut [u8], place: Place, cells: &[u16], i: usize) -> Place
    ensures { sink result out.new ≡ puts (sink place out.old) (behind_leaf cells.now i) }
{
    let n = count_closings(cells, i);
    let p = put_repeat(out, place, b')', n);
    if i < cells.len() {
        return put_byte(out, p, b' ');
    }
    p
}

pub fn put_tree(
    out: &mut [u8],
    place: Place,
    program: &[u8],
    job: &[u8],
    symbols: &[u16],
    cells: &[u16],
) -> Place
    ensures { sink result out.new ≡ puts (sink place out.old) (tree_text (symbol_text program.now job.now symbols.now) cells.now) }
{
    let mut p = place;
    for (i, &c) in cells.iter().enumerate() {
        if c == tree::PAIR {
            p = put_text(out, p, b"(cons ");
            continue;
        }
        let q = put_leaf(out, p, program, job, symbols, c);
        p = put_behind(out, q, cells, i + 1);
    }
    p
}
