// Restrictions in cells, two a non-equality, oldest first: adding one, simplifying, and binding a `?a`.
ghost use Rattle.std.specs.Prelude.{◌≡◌};
ghost use Rattle.restrictions.specs.Twins.Restricting.{stands_cells, kind_cells, add_cells, simplify_cells, bind_cells};

use crate::failure::Failure;
use cells::cell;
use sets::{fill, tree};

// What becomes of a non-equality behind those that are kept.
#[derive(Drop)]
pub enum Kind {
    Contradiction,
    Redundant,
    Kept,
}

// Whether x # y stands among the first n non-equalities, in either order of sides.
fn stands(q: &[u16], n: usize, x: u16, y: u16) -> bool
    ensures { result ≡ stands_cells n x y q.now }
{
    let count = n.min(q.len() / 2);
    for i in 0..count {
        let a = q[2 * i];
        let b = q[2 * i + 1];
        if a == x && b == y {
            return true;
        }
        if a == y && b == x {
            return true;
        }
    }
    false
}

// "an item against itself is a contradiction", "Non-equalities of two different atoms are dropped, repeats .. too"
pub fn kind_of(q: &[u16], n: usize, x: u16, y: u16) -> Kind
    ensures { result ≡ kind_cells n x y q.now }
{
    if x == y {
        return Kind::Contradiction;
    }
    if x % 4 == 1 && y % 4 == 1 || stands(q, n, x, y) {
        return Kind::Redundant;
    }
    Kind::Kept
}

// Adds x # y behind n simplified non-equalities: how many there are then. Over: the storage has no room for one more.
pub fn add(q: &mut [u16], n: usize, x: u16, y: u16) -> Result<usize, Failure>
    ensures { let w = add_cells n x y q.old in (result ≡ w.answer) × (q.new ≡ w.cells) }
{
    match kind_of(q, n, x, y) {
        Kind::Contradiction => Err(Failure::Contradiction),
        Kind::Redundant => Ok(n),
        Kind::Kept => {
            if q.len() / 2 <= n {
                return Err(Failure::Over);
            }
            cell::put(q, 2 * n, x);
            cell::put(q, 2 * n + 1, y);
            Ok(n + 1)
        }
    }
}

// Simplifies the first n non-equalities in place.
pub fn simplify(q: &mut [u16], n: usize) -> Result<usize, Failure>
    ensures { let w = simplify_cells n q.old in (result ≡ w.answer) × (q.new ≡ w.cells) }
{
    let count = n.min(q.len() / 2);
    let mut kept: usize = 0;
    for i in 0..count {
        let x = q[2 * i];
        let y = q[2 * i + 1];
        match kind_of(q, kept, x, y) {
            Kind::Contradiction => return Err(Failure::Contradiction),
            Kind::Redundant => {}
            Kind::Kept => {
                cell::put(q, 2 * kept, x);
                cell::put(q, 2 * kept + 1, y);
                kept += 1;
            }
        }
    }
    Ok(kept)
}

// Binds the variable x to y in the first n non-equalities, which are simplified, and simplifies them again where x stands in one.
pub fn bind(q: &mut [u16], n: usize, x: u16, y: u16) -> Result<usize, Failure>
    ensures { let w = bind_cells n x y q.old in (result ≡ w.answer) × (q.new ≡ w.cells) }
{
    let count = n.min(q.len() / 2);
    if tree::stands_in(q, 0, 2 * count, x) {
        fill::rename(q, 2 * count, x, y);
        return simplify(q, count);
    }
    Ok(count)
}
