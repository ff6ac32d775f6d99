// Runs of cells that hold trees: copying, the end of a tree, and what stands in it.
ghost use Rattle.std.specs.Prelude.{◌≡◌, ◌+◌, ◌≤◌, length};
ghost use Rattle.sets.specs.Twins.Copying.{copied, one_pair, four_pairs, behind_four, tree_end, stands_in};

// The code of a pair: its two trees follow.
pub const PAIR: u16 = 4;

// Copies n cells from `from` on in src to dst from `at` on, if both have them; else nothing. By a loop: `copy_from_slice` is compiled to a call of
// `memmove`, a name that the archive for C then needs from outside.
pub fn copy(src: &[u16], from: usize, n: usize, dst: &mut [u16], at: usize) -> bool
    ensures { let w = copied src.now from n dst.old at in (result ≡ w.done) × (dst.new ≡ w.cells) }
{
    if src.len() < from || src.len() - from < n || dst.len() < at || dst.len() - at < n {
        return false;
    }
    for i in 0..n {
        dst[at + i] = src[from + i];
    }
    true
}

// 1 for a pair.
fn is_pair(code: u16) -> u16
    ensures { (result ≡ one_pair code) × (result ≤ 1) }
{
    u16::from(code == PAIR)
}

// How many of the four cells from i on are pairs.
fn pairs(s: &[u16], i: usize) -> usize
    requires { i + 4 ≤ length s.now }
    ensures { (result ≡ four_pairs s.now i) × (result ≤ 4) }
{
    let n = is_pair(s[i]) + is_pair(s[i + 1]) + is_pair(s[i + 2]) + is_pair(s[i + 3]);
    usize::from(n)
}

// How many trees are needed behind the next four cells, where they are there and the needed ones do not end in them; else 0. Without a
// branch for each cell: the compiler looks at the four at once.
fn behind_four(s: &[u16], i: usize, need: usize) -> usize
    requires { need ≤ i + 1 }
    ensures { result ≡ behind_four s.now i need }
{
    if s.len() < 4 || s.len() - 4 < i {
        return 0;
    }
    let p = pairs(s, i);
    if need + p <= 4 {
        return 0;
    }
    need + 2 * p - 4
}

// The place behind the tree that starts at `at`: where the cells run out or no more is needed.
pub fn tree_end(s: &[u16], at: usize) -> usize
    ensures { result ≡ tree_end s.now at }
{
    let mut need: usize = 1;
    let mut i = at;
    while i < s.len() {
        if need == 0 {
            return i;
        }
        let n = behind_four(s, i, need);
        if 0 < n {
            need = n;
            i += 4;
            continue;
        }
        if s[i] == PAIR {
            need += 1;
        } else {
            need -= 1;
        }
        i += 1;
    }
    i
}

// Whether x stands in s from `from` on, before `to`.
pub fn stands_in(s: &[u16], from: usize, to: usize, x: u16) -> bool
    ensures { result ≡ stands_in s.now from to x }
{
    let end = to.min(s.len());
    for i in from..end {
        if s[i] == x {
            return true;
        }
    }
    false
}
