// The leftmost disagreement of the wanted output with the output: the first place at which their runs of the heap differ.
ghost use Rattle.std.specs.Prelude.{◌≡◌, ◌<◌, ◌≤◌};
ghost use Rattle.meetings.specs.Twins.Differing.{first_difference, unless_standing, atomic_judged, judged, leftmost_in};

use sets::tree;

// What removes it: nothing is to be removed, nothing can; a variable bound to the tree of a range, of which a leaf is one of one cell.
#[derive(Clone, Copy)]
pub enum Disagreement {
    Same,
    Apart,
    Bind { var: u16, from: usize, to: usize },
}

// The place of a difference in both.
#[derive(Clone, Copy)]
pub struct Difference {
    pub wanted: usize,
    pub output: usize,
}

// The first places at which the two runs differ or one of them ends.
fn first_difference(
    heap: &[u16; 65535],
    wfrom: usize,
    wto: usize,
    ufrom: usize,
    uto: usize,
) -> Difference
    requires { (wto ≤ 65535) × (uto ≤ 65535) }
    ensures { result ≡ first_difference wfrom wto ufrom uto heap.now }
{
    let most = wto.saturating_sub(wfrom).min(uto.saturating_sub(ufrom));
    for n in 0..most {
        if heap[wfrom + n] != heap[ufrom + n] {
            return Difference {
                wanted: wfrom + n,
                output: ufrom + n,
            };
        }
    }
    Difference {
        wanted: wfrom + most,
        output: ufrom + most,
    }
}

// "bind it ..", "each fails if the variable occurs inside the other side": the tree that begins at `from`, before `to`.
fn bind_unless_occurs(heap: &[u16; 65535], var: u16, from: usize, to: usize) -> Disagreement
    ensures { result ≡ unless_standing var from to heap.now }
{
    let end = tree::tree_end(heap, from).min(to);
    if tree::stands_in(heap, from, end, var) {
        return Disagreement::Apart;
    }
    Disagreement::Bind { var, from, to: end }
}

// "else w a `?a` and u atomic, bind w; else u a `?a` and w an atom, bind u; .. the rest fail", where neither is a `?e`.
fn judge_atomic(heap: &[u16; 65535], p: usize, wto: usize, k: usize, uto: usize) -> Disagreement
    requires { (p < 65535) × (k < 65535) }
    ensures { result ≡ atomic_judged p wto k uto heap.now }
{
    let w = heap[p];
    let u = heap[k];
    if w % 4 == 3 {
        if u % 2 == 1 {
            return bind_unless_occurs(heap, w, k, uto);
        }
        return Disagreement::Apart;
    }
    if u % 4 == 3 && w % 4 == 1 {
        return bind_unless_occurs(heap, u, p, wto);
    }
    Disagreement::Apart
}

// "w a `?e`, bind it to u; else u a `?e`, bind it to w": the cells at p and at k differ.
fn judge(heap: &[u16; 65535], p: usize, wto: usize, k: usize, uto: usize) -> Disagreement
    requires { (p < 65535) × (k < 65535) }
    ensures { result ≡ judged p wto k uto heap.now }
{
    let w = heap[p];
    let u = heap[k];
    if w % 4 == 2 {
        return bind_unless_occurs(heap, w, k, uto);
    }
    if u % 4 == 2 {
        return bind_unless_occurs(heap, u, p, wto);
    }
    judge_atomic(heap, p, wto, k, uto)
}

// "Head before tail: the same item, nothing": of w, the run from `wfrom` up to `wto`, and u, the run from `ufrom` up to `uto`.
pub fn leftmost(
    heap: &[u16; 65535],
    wfrom: usize,
    wto: usize,
    ufrom: usize,
    uto: usize,
) -> Disagreement
    ensures { result ≡ leftmost_in wfrom wto ufrom uto heap.now }
{
    let wend = wto.min(65535);
    let uend = uto.min(65535);
    let d = first_difference(heap, wfrom, wend, ufrom, uend);
    let p = d.wanted;
    let k = d.output;
    if wend <= p {
        return Disagreement::Same;
    }
    if uend <= k {
        return Disagreement::Same;
    }
    judge(heap, p, wend, k, uend)
}
