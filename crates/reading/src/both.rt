// Both texts read and checked, and where their parts stand (01, "From the input"): "Order: the program first, then the job."
ghost use Rattle.std.specs.Prelude.{◌≡◌, Bool, Ok};
ghost use Rattle.reading.specs.Twins.BothCells.{in_program, in_job, PlacedOut, placed_job, both_roomy, both_read};

use lent::read::{Read, Unread, long_enough};
use refusals::refusal::Refused;
use syntax::ends::mark_ends;
use syntax::heads::store_heads;
use syntax::job_ends::{JobEnds, job_ends};
use syntax::numerals::{Numerals, job_numerals};
use texts::read_job::{Before, read_job};
use texts::read_program::read_program;

// "a program 64 definitions": the least length of `heads`, in cells.
pub const DEFINITIONS: usize = 64;

// How many definitions the program has, how many symbols both texts have, where the job's parts end, N, W and T.
#[derive(Clone, Copy)]
pub struct Both {
    pub count: usize,
    pub symbols: u16,
    pub parts: JobEnds,
    pub numerals: Numerals,
}

// How many tokens the program and the job have, and how many symbols both.
#[derive(Clone, Copy)]
struct Counts {
    program: usize,
    job: usize,
    symbols: u16,
}

// Where the definitions, the brackets' ends and the parts of an accepted job stand; the ends of the program's brackets take the place of its
// offsets.
#[tactic(auto, unfolding(crate::specs::Twins::BothCells::placed_job))]
fn place_job(
    marks: &[u16],
    nums: &[u16],
    ats: &mut [u16],
    heads: &mut [u16],
    job: &[u8],
    jmarks: &[u16],
    jats: &[u16],
    found: Counts,
) -> Both
    ensures { PlacedOut (Ok result) ats.new heads.new (placed_job marks.now nums.now ats.old found.program heads.old job.now jmarks.now jats.now found.job found.symbols) }
{
    let n = found.program;
    let m = found.job;
    let count = store_heads(marks, nums, ats, n, heads);
    mark_ends(marks, n, ats);
    let parts = job_ends(jmarks, m);
    let numerals = job_numerals(job, jats, m, parts.neqs);
    Both {
        count,
        symbols: found.symbols,
        parts,
        numerals,
    }
}

// A refusal of the program's text.
fn in_program(read: Result<Read, Unread>) -> Result<Read, Refused>
    ensures { result ≡ in_program read }
{
    read.map_err(|unread| match unread {
        Unread::Refused(refusal) => Refused::Program(refusal),
        Unread::Short => Refused::Short,
    })
}

// A refusal of the job's.
fn in_job(read: Result<Read, Unread>) -> Result<Read, Refused>
    ensures { result ≡ in_job read }
{
    read.map_err(|unread| match unread {
        Unread::Refused(refusal) => Refused::Job(refusal),
        Unread::Short => Refused::Short,
    })
}

fn room_for_both(
    marks: &[u16],
    nums: &[u16],
    ends: &[u16],
    heads: &[u16],
    jmarks: &[u16],
    jnums: &[u16],
    symbols: &[u16],
    work: &[u16],
) -> bool
    ensures { result ≡ both_roomy marks.now nums.now ends.now heads.now jmarks.now jnums.now symbols.now work.now }
{
    heads.len() >= DEFINITIONS
        && long_enough(marks, nums, ends, symbols, work)
        && long_enough(jmarks, jnums, ends, symbols, work)
}

// Reads both texts; `runs` for the forward runner. After acceptance the tokens of the program stand in marks and nums, the ends of what they
// begin in ends, its definitions in heads, the tokens of the job in jmarks and jnums, the symbols of both in their table. `work` is lent for
// the other names, and zero after acceptance or refusal. 20 comes before all else and touches nothing.
pub fn read_both(
    runs: bool,
    program: &[u8],
    job: &[u8],
    marks: &mut [u16],
    nums: &mut [u16],
    ends: &mut [u16],
    heads: &mut [u16],
    jmarks: &mut [u16],
    jnums: &mut [u16],
    symbols: &mut [u16],
    work: &mut [u16],
) -> Result<Both, Refused>
    ensures { let w = both_read runs program.now job.now marks.old nums.old ends.old heads.old jmarks.old jnums.old symbols.old work.old in (result ≡ w.job.placed.texts) × (marks.new ≡ w.marks) × (nums.new ≡ w.nums) × (ends.new ≡ w.job.placed.ends) × (heads.new ≡ w.job.placed.heads) × (jmarks.new ≡ w.job.jmarks) × (jnums.new ≡ w.job.jnums) × (symbols.new ≡ w.job.symbols) × (work.new ≡ w.job.work) }
{
    if !room_for_both(marks, nums, ends, heads, jmarks, jnums, symbols, work) {
        return Err(Refused::Short);
    }
    let first = in_program(read_program(program, marks, nums, ends, symbols, work))?;
    let before = Before {
        text: program,
        marks,
        tokens: first.tokens,
        symbols: first.symbols,
    };
    let mut jats = [0u16; 4097];
    let read = read_job(runs, before, job, jmarks, jnums, &mut jats, symbols, work);
    let second = in_job(read)?;
    let found = Counts {
        program: first.tokens,
        job: second.tokens,
        symbols: second.symbols,
    };
    Ok(place_job(marks, nums, ends, heads, job, jmarks, &jats, found))
}
