// The whole program: each definition with its parameters in reach.
ghost use Rattle.std.specs.Prelude.{◌≡◌, ◌-◌};
ghost use Rattle.linking.specs.Twins.Linking.{names_left, linked, parameters_named, definition_linked, program_linked, program_end};

use crate::names::push_name;
use crate::source::Source;
use crate::terms::{Reach, closing, link_term};
use crate::tokens::on;
use cells::cell;
use links::link::{bracket_of, last_of};

// The parameters from p up to `to` come into reach, in order: how many are in reach then.
#[tactic(auto, using(crate::proofs::LinkTurns::parameters_turn, crate::proofs::LinkTurns::parameters_end))]
fn push_parameters(names: &mut [usize; 144], p: usize, to: usize) -> usize
    ensures { names_left result names.new ≡ parameters_named (to - p) p 0 names.old }
{
    let mut used: usize = 0;
    for i in p..to {
        used = push_name(names, used, i);
    }
    used
}

// The definition whose name stands at h: its parameters two tokens on, its body behind the bracket that closes them.
#[tactic(auto, unfolding(crate::specs::Twins::Linking::definition_linked))]
fn link_definition(p: Source<'_>, names: &mut [usize; 144], code: &mut [u16; 24582], h: usize)
    ensures { linked names.new code.new ≡ definition_linked p.entry.marks.now p.entry.nums.now p.entry.ends.now p.entry.heads.now p.entry.count h (linked names.old code.old) }
{
    let open = on(h, 2);
    let close = closing(p.marks, open);
    let used = push_parameters(names, open, close);
    let reach = Reach { room: 63, used };
    link_term(p, names, code, reach, on(close, 1));
}

// The definitions of an accepted program, `count` of them, linked.
#[tactic(auto, using(crate::proofs::LinkTurns::all_left, crate::proofs::LinkTurns::definitions_turn, crate::proofs::LinkTurns::definitions_end))]
pub fn link_program(
    marks: &[u16],
    nums: &[u16],
    ends: &[u16],
    heads: &[u16; 64],
    count: usize,
    code: &mut [u16; 24582],
)
    ensures { code.new ≡ program_linked marks.now nums.now ends.now heads.now count code.old }
{
    let p = Source {
        marks,
        nums,
        ends,
        heads,
        count,
    };
    let mut names = [0usize; 144];
    let n = count.min(64);
    for j in 0..n {
        let h = usize::from(heads[j]);
        link_definition(p, &mut names, code, h);
    }
}

// The index past the last of so many definitions, whose name stands two tokens behind its bracket: as many tokens the program has.
pub fn program_end(ends: &[u16], heads: &[u16; 64], count: usize) -> usize
    ensures { result ≡ program_end ends.now heads.now count }
{
    let name = usize::from(cell::cell(heads, last_of(count)));
    usize::from(cell::cell(ends, bracket_of(name)))
}
