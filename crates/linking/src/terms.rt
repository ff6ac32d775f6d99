// Terms: a call knows the body that it goes to, a condition its two branches, and each branch has its names in reach.
ghost use Rattle.std.specs.Prelude.{◌≡◌};
ghost use Rattle.linking.specs.Twins.Linking.{form_of, head_of, closing_at, call_link, if_link, names_left, true_names, false_names, linked, if_linked, term_linked};

use crate::code::{CALL, Link, SAME, TEST, set_link};
use crate::expression::link_range;
use crate::names::push_name;
use crate::source::Source;
use crate::tokens::{key, on, past};
use cells::cell;
use links::link::body_behind;
use words::keys;

// How many more brackets may be opened, and how many names are in reach.
#[derive(Clone, Copy)]
pub(crate) struct Reach {
    pub room: usize,
    pub used: usize,
}

// The word behind the bracket at i; 0 where no bracket stands.
#[tactic(auto, unfolding(crate::specs::Twins::Linking::form_of))]
fn form_of(marks: &[u16], i: usize) -> u16
    ensures { result ≡ form_of marks.now i }
{
    if key(marks, i) == keys::OPEN {
        return key(marks, on(i, 1));
    }
    0
}

// The index of the token that names the definition with this name.
#[tactic(auto, using(crate::proofs::LinkTurns::all_left, crate::proofs::LinkTurns::head_turn, crate::proofs::LinkTurns::head_end))]
fn head_of(nums: &[u16], heads: &[u16; 64], count: usize, name: u16) -> usize
    ensures { result ≡ head_of nums.now heads.now count name }
{
    let n = count.min(64);
    for j in 0..n {
        let h = usize::from(heads[j]);
        if cell::cell(nums, h) == name {
            return h;
        }
    }
    0
}

// The first `]` from p on; the parameters of a definition begin two tokens behind its name, and its body one behind this.
#[tactic(auto, using(crate::proofs::LinkTurns::closing_turn, crate::proofs::LinkTurns::closing_end))]
pub fn closing(marks: &[u16], p: usize) -> usize
    ensures { result ≡ closing_at marks.now p }
{
    let n = marks.len();
    for q in p..n {
        if key(marks, q) == keys::CLOSE_LIST {
            return q;
        }
    }
    p.max(n)
}

// The call at i: how many parameters its definition has, and where its body starts.
#[tactic(auto, unfolding(crate::specs::Twins::Linking::call_link))]
fn call_link(p: Source<'_>, i: usize) -> Link
    ensures { result ≡ call_link p.entry.marks.now p.entry.nums.now p.entry.ends.now p.entry.heads.now p.entry.count i }
{
    let name = cell::cell(p.nums, on(i, 2));
    let open = on(head_of(p.nums, p.heads, p.count, name), 2);
    let close = closing(p.marks, open);
    Link {
        mark: CALL,
        first: cell::low(close.saturating_sub(open)),
        second: body_behind(close),
        past: cell::cell(p.ends, i),
    }
}

// The `if` at i: where its branches start.
#[tactic(auto, unfolding(crate::specs::Twins::Linking::if_link))]
fn if_link(marks: &[u16], ends: &[u16], i: usize) -> Link
    ensures { result ≡ if_link marks.now ends.now i }
{
    let yes = cell::cell(ends, on(i, 2));
    let no = cell::cell(ends, usize::from(yes));
    let same = key(marks, on(i, 3)) == keys::EQA;
    Link {
        mark: if same { SAME } else { TEST },
        first: yes,
        second: no,
        past: cell::cell(ends, i),
    }
}

// "The true branch of `cons?` has its two xe": they stand behind what is tested.
#[tactic(auto, unfolding(crate::specs::Twins::Linking::true_names))]
fn true_names(names: &mut [usize; 144], used: usize, mark: u16, h: usize) -> usize
    ensures { names_left result names.new ≡ true_names used mark h names.old }
{
    if mark == SAME {
        return used;
    }
    let one = push_name(names, used, h);
    push_name(names, one, on(h, 1))
}

// "the false branch its xa".
#[tactic(auto, unfolding(crate::specs::Twins::Linking::false_names))]
fn false_names(names: &mut [usize; 144], used: usize, mark: u16, h: usize) -> usize
    ensures { names_left result names.new ≡ false_names used mark h names.old }
{
    if mark == SAME {
        return used;
    }
    push_name(names, used, on(h, 2))
}

// "`(if k t t)`", behind whose bracket `room` brackets may be opened.
#[cycle(link_if_link_term)]
fn link_if(p: Source<'_>, names: &mut [usize; 144], code: &mut [u16; 24582], reach: Reach, i: usize)
    ensures { linked names.new code.new ≡ if_linked p.entry.marks.now p.entry.nums.now p.entry.ends.now p.entry.heads.now p.entry.count reach.room reach.used i (linked names.old code.old) }
{
    let Reach { room, used } = reach;
    let l = if_link(p.marks, p.ends, i);
    let yes = usize::from(l.first);
    let no = usize::from(l.second);
    let tested = on(i, 4);
    let h = past(p.ends, tested);
    set_link(code, i, l);
    link_range(p, names, used, code, tested, yes);
    let one = true_names(names, used, l.mark, h);
    let then = Reach { room, used: one };
    link_term(p, names, code, then, yes);
    let two = false_names(names, used, l.mark, h);
    let other = Reach { room, used: two };
    link_term(p, names, code, other, no);
}

// A t: "`(call F [e ..])`, `(if k t t)` or e".
#[cycle(link_if_link_term)]
pub(crate) fn link_term(
    p: Source<'_>,
    names: &mut [usize; 144],
    code: &mut [u16; 24582],
    reach: Reach,
    i: usize,
)
    ensures { linked names.new code.new ≡ term_linked p.entry.marks.now p.entry.nums.now p.entry.ends.now p.entry.heads.now p.entry.count reach.room reach.used i (linked names.old code.old) }
{
    let Reach { room, used } = reach;
    let end = past(p.ends, i);
    if room == 0 {
        link_range(p, names, used, code, i, end);
        return;
    }
    let form = form_of(p.marks, i);
    if form == keys::IF {
        let inner = Reach {
            room: room - 1,
            used,
        };
        link_if(p, names, code, inner, i);
        return;
    }
    if form == keys::CALL {
        let l = call_link(p, i);
        link_range(p, names, used, code, i, end);
        set_link(code, i, l);
        return;
    }
    link_range(p, names, used, code, i, end);
}
